use service_keepers::Visit;
use site_types::Label;

/// What the body of a visit says.
#[derive(Drop)]
pub struct VisitBody {
    /// None for `-`.
    pub code: Option<Label>,
    pub visit: Visit,
    /// The points that it tested, by their places in the site's list.
    pub points: Vec<u16>,
}
