use panel_edges::Label;

/// A visit of an engineer to the site.
#[derive(Clone, Copy, Debug, PartialEq, Eq)]
pub struct Visit {
    /// What the visit goes by: no two that are kept have one number.
    pub number: u32,
    /// Its day. Days are counted from any first one, as the site's owner likes.
    pub day: u32,
    pub engineer: Label,
}
