/// How long each supply may be bad before its fault is shown, in ticks.
#[derive(Clone, Copy, Debug, Default, PartialEq, Eq)]
pub struct Waits {
    pub mains: u16,
    pub standby: u16,
    pub voltage: u16,
    pub charger: u16,
}
