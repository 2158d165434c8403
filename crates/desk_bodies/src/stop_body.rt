use site_types::Label;

/// What the body of a stop says.
#[derive(Clone, Copy)]
pub struct StopBody {
    /// None for `-`.
    pub code: Option<Label>,
}
