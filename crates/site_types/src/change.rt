ghost use Rattle.std.specs.Prelude.{◌≡◌, slice_get};
ghost use Rattle.site_types.specs.Changes.{item_change, operation_change, test_change};

use crate::item::Item;
use crate::operation::Operation;
use crate::site::Site;

/// One change of what is retained. Panels are 1 to 8, loops 1 to 4, addresses 1 to 192, numbers 1 to 32.
#[derive(Clone, Copy, Debug, PartialEq, Eq)]
pub enum Change {
    Point {
        panel: u8,
        line: u8,
        address: u8,
        off: bool,
    },
    Zone {
        panel: u8,
        number: u8,
        off: bool,
    },
    Output {
        panel: u8,
        number: u8,
        off: bool,
    },
    Delays {
        panel: u8,
        off: bool,
    },
    /// Entries into the fire alarm condition are counted.
    Count {
        panel: u8,
        entries: u32,
    },
    Clear {
        panel: u8,
    },
    Test {
        panel: u8,
        number: u8,
        on: bool,
    },
}

// What fills the unused places of an `ArrayVec` of changes.
impl Default for Change {
    fn default() -> Change {
        Change::Clear { panel: 1 }
    }
}

impl Site {
    /// The change that an operation at a panel makes: none where it is not kept, or names what the site has not.
    pub fn change_of(&self, panel: u8, operation: &Operation) -> Option<Change>
        ensures { result ≡ operation_change self.now panel operation.now }
    {
        match *operation {
            Operation::Disable(item) => self.disablement(item, true),
            Operation::Enable(item) => self.disablement(item, false),
            Operation::Test(zone) => self.test(zone, true),
            Operation::Untest(zone) => self.test(zone, false),
            Operation::Delays(on) => Some(Change::Delays { panel, off: !on }),
            Operation::Clear => Some(Change::Clear { panel }),
            Operation::Mute
            | Operation::Override
            | Operation::Silence
            | Operation::Resound
            | Operation::Reset
            | Operation::Cancel(_) => None,
        }
    }

    // The change that disables or enables an item.
    fn disablement(&self, item: Item, off: bool) -> Option<Change>
        ensures { result ≡ item_change self.now item off }
    {
        match item {
            Item::Point(point) => {
                let point = self.points.get(point as usize)?;
                Some(Change::Point {
                    panel: point.panel,
                    line: point.line,
                    address: point.address,
                    off,
                })
            }
            Item::Zone(zone) => {
                let zone = self.zones.get(zone as usize)?;
                Some(Change::Zone {
                    panel: zone.panel,
                    number: zone.number,
                    off,
                })
            }
            Item::Output(output) => {
                let output = self.outputs.get(output as usize)?;
                Some(Change::Output {
                    panel: output.panel,
                    number: output.number,
                    off,
                })
            }
        }
    }

    // The change that puts a zone in test or takes it out.
    fn test(&self, zone: u16, on: bool) -> Option<Change>
        ensures { result ≡ test_change (slice_get self.now.zones zone) on }
    {
        let zone = self.zones.get(zone as usize)?;
        Some(Change::Test {
            panel: zone.panel,
            number: zone.number,
            on,
        })
    }
}
