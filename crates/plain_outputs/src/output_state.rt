/// What is told of an output.
#[derive(Clone, Copy)]
pub enum OutputState {
    /// It is on after the latest turn of Drive of its panel.
    On,
    /// It was confirmed while it was on, and has been on since.
    Confirmed,
    /// It has been on for too long without the confirmation that it asks for.
    Unconfirmed,
}
