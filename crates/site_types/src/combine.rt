/// How the terms of a marker are combined.
#[derive(Clone, Copy, Debug, Default, PartialEq, Eq)]
pub enum Combine {
    #[default]
    All,
    Any,
    AtLeast(u8),
}
