/// A growth was refused while an object was made.
#[derive(Clone, Copy, Debug, PartialEq, Eq)]
pub struct NoMemory;
