/// The level of the code is too low for the operation.
#[derive(Clone, Copy, Debug, PartialEq, Eq)]
pub struct Denied {
    /// The least level of the operation.
    pub needs: u8,
    /// The level of the code.
    pub has: u8,
}
