/// What may be disabled, by its place in the list of its kind.
#[derive(Clone, Copy, Debug, PartialEq, Eq)]
pub enum Item {
    Point(u16),
    Zone(u16),
    Output(u16),
}
