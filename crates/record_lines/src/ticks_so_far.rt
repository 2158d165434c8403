/// How far a record has come between two lines.
#[derive(Clone, Copy)]
pub struct TicksSoFar {
    /// How many ticks have begun.
    pub ticks: u64,
    /// Whether the latest of them has its order.
    pub has_order: bool,
}
