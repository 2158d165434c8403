/// What is asked of a point when its panel opens.
#[derive(Clone, Copy)]
pub enum Asked {
    /// Whether it is retained as disabled.
    Disabled,
    /// Whether its zone is retained as disabled.
    ZoneDisabled,
}
