/// What came of a connection.
#[derive(Clone, Copy, Debug, PartialEq, Eq)]
pub enum Exchanged {
    /// What came was answered.
    Answered,
    /// A read failed. Nothing was answered, and nothing is changed by what came.
    ReadFault,
    /// A write failed. What came has acted.
    WriteFault,
}
