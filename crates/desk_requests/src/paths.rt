/// A path of the desk, some with a number behind it.
#[derive(Clone, Copy)]
pub enum Path {
    Face,
    Ticks,
    Table,
    Visits,
    Untested,
    Stop,
}
