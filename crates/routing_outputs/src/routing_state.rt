/// What a routing or protection output is at. An output of another kind, or one that isn't there, is idle.
#[derive(Clone, Copy, Debug, PartialEq, Eq)]
pub enum RoutingState {
    /// Off.
    Idle,
    /// On, not confirmed, and not for long.
    Waiting,
    /// On, and confirmed since it went on.
    Confirmed,
    /// On for the limit or longer, and not confirmed.
    Unconfirmed,
}
