use panel_edges::Label;

/// That a visit tested a point.
#[derive(Clone, Copy, Debug, PartialEq, Eq)]
pub struct PointTest {
    /// The number of the visit.
    pub visit: u32,
    /// The name of the point.
    pub point: Label,
}
