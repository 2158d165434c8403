/// A pass over the whole file, which looks for one kind of fault.
#[derive(Clone, Copy, Debug, PartialEq, Eq)]
pub enum Pass {
    Missing,
    WrongKind,
    Unknown,
    OutOfRange,
}
