/// What is known of an order before its turns are made.
#[derive(Clone, Copy, Debug, PartialEq, Eq)]
pub enum OrderForm {
    /// It is the canonical one.
    Canonical,
    /// It is the canonical one backwards: Keep first, then the tasks of the last panel from Drive to Poll.
    Reversed,
    /// Nothing, so it is gone through seat by seat.
    Any,
}
