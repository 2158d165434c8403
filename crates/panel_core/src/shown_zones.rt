/// The zones of each panel that a panel shows, bit `number - 1`. Panel 1 stands first.
#[derive(Clone, Copy, Debug)]
pub struct ShownZones {
    /// Those in alarm.
    pub(crate) alarms: [u32; 8],
    /// Those in first state.
    pub(crate) firsts: [u32; 8],
}
