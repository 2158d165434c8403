use tick_units::Tick;

/// What the operations done before an answer say of it.
#[derive(Clone, Copy)]
pub struct Judgement {
    /// Whether the answer counts.
    pub counted: bool,
    /// The last floor of its zone before it.
    pub floor: Tick,
}
