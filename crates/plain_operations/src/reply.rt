/// What is answered to an operation.
#[derive(Clone, Copy)]
pub enum Reply {
    /// Its panel had taken the most operations of a tick.
    Busy,
    /// The level of its code is too low.
    Denied { needs: u8, has: u8 },
    /// An earlier operation on its setting isn't in force yet.
    Waiting,
    /// Its setting has the value already.
    Already,
    /// It couldn't be stored.
    Store,
    WasDone,
}
