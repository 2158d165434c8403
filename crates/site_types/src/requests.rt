/// The outputs of a panel that are asked for, and those asked for by hand, bit `number - 1` each.
#[derive(Clone, Copy, Debug, Default, PartialEq, Eq)]
pub struct Requests {
    pub asked: u32,
    pub manual: u32,
}
