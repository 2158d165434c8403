use crate::item::Item;

/// What is asked of a panel by hand. Zones are places in the site's list.
#[derive(Clone, Copy, Debug, PartialEq, Eq)]
pub enum Operation {
    Mute,
    Override,
    Silence,
    Resound,
    Reset,
    Cancel(u16),
    Disable(Item),
    Enable(Item),
    Test(u16),
    Untest(u16),
    /// The panel's delays: true for on.
    Delays(bool),
    /// The panel's counter goes to 0.
    Clear,
}
