/// What an asking of a point gave.
#[derive(Clone, Copy, Debug, Default, PartialEq, Eq)]
pub enum Heard {
    #[default]
    Quiet,
    Alarm,
    Silent,
}
