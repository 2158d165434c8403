/// The conditions of a panel, any of which stand together. A panel in none of them is quiescent.
#[derive(Clone, Copy)]
pub struct Conditions {
    /// One of its own zones is in alarm.
    pub fire: bool,
    /// It shows a fault.
    pub fault: bool,
    /// One of its points, zones or outputs is disabled, or its delays are off.
    pub disabled: bool,
    /// One of its zones is in test.
    pub test: bool,
}
