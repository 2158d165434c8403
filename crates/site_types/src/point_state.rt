/// What a point is at.
#[derive(Clone, Copy, Debug, Default, PartialEq, Eq)]
pub enum PointState {
    #[default]
    Quiet,
    Alarm,
    Gone,
}
