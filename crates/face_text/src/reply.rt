/// What is answered to an operation that didn't find its panel busy.
#[derive(Clone, Copy, Default, PartialEq, Eq)]
pub enum Reply {
    #[default]
    Done,
    /// The code's level is too low.
    Denied { needs: u8, has: u8 },
    /// An earlier operation on the same setting isn't in force yet.
    Waiting,
    /// The setting stands so.
    Already,
    /// It couldn't be stored.
    Store,
}
