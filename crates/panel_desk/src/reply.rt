use desk_register::Reply as RegisterReply;

/// What is replied to a request.
#[derive(Drop)]
pub enum Reply {
    /// The face of this panel.
    Face(u8),
    /// The profile's table.
    Profile,
    /// The text of the tick that was run.
    Tick,
    /// An object, or the table of the untested points.
    Other(RegisterReply),
}
