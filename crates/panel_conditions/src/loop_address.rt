/// Where a point of a panel stands: a loop, 1 to 4, and an address of it, 1 to 192.
#[derive(Clone, Copy)]
pub struct LoopAddress {
    pub line: u8,
    pub address: u8,
}
