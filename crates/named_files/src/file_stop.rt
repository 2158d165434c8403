/// Why the file of a name isn't at hand.
#[derive(Clone, Copy, Debug, PartialEq, Eq)]
pub enum FileStop {
    /// There is no such file, or it is too long.
    NoFile,
    /// The file can't be read.
    ReadFault,
    /// Memory ran out.
    NoMemory,
}
