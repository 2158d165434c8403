ghost use Rattle.std.specs.Prelude.{◌≡◌, ◌-◌, slice_index};
ghost use Rattle.site_types.specs.Bits.{has_bit};
ghost use Rattle.site_types.specs.Changes.{CanApply, IsNumber, IsPanelNumber, changed, nothing_retained, with_number};

use crate::bits::{has_bit_32, with_bit_8, with_bit_32};
use crate::change::Change;
use crate::limits::GREATEST_COUNT;
use crate::point_set::PointSet;

/// What is kept of a site over a power cut: disablements, delays, counters and zones in test.
#[derive(Clone, Copy, Debug, PartialEq, Eq)]
pub struct Retained {
    /// Disabled points by panel.
    pub points: [PointSet; 8],
    /// Disabled zones by panel, bit `number - 1`.
    pub zones: [u32; 8],
    /// Disabled outputs by panel, bit `number - 1`.
    pub outputs: [u32; 8],
    /// Panels with delays off, bit `panel - 1`.
    pub delays_off: u8,
    /// The alarm counter of each panel, at most 999,999.
    pub counters: [u32; 8],
    /// Zones in test by panel, bit `number - 1`.
    pub tests: [u32; 8],
}

impl Retained {
    /// Nothing disabled or in test, delays on, counters 0.
    pub fn empty() -> Retained
        ensures { result ≡ nothing_retained }
    {
        Retained {
            points: [PointSet { loops: [[0; 2]; 4] }; 8],
            zones: [0; 8],
            outputs: [0; 8],
            delays_off: 0,
            counters: [0; 8],
            tests: [0; 8],
        }
    }

    /// Makes a change. What it names has a place here: panels 1 to 8, loops 1 to 4, addresses 1 to 192,
    /// numbers 1 to 32.
    pub fn apply(&mut self, change: &Change)
        requires { CanApply change.now }
        ensures { self.new ≡ changed change.now self.old }
    {
        match *change {
            Change::Point {
                panel,
                line,
                address,
                off,
            } => self.points[panel as usize - 1].set(line, address, off),
            Change::Zone { panel, number, off } => set_number(&mut self.zones, panel, number, off),
            Change::Output { panel, number, off } => {
                set_number(&mut self.outputs, panel, number, off)
            }
            Change::Delays { panel, off } => {
                self.delays_off = with_bit_8(self.delays_off, panel - 1, off);
            }
            Change::Count { panel, entries } => {
                let counter = &mut self.counters[panel as usize - 1];
                *counter = counter.saturating_add(entries).min(GREATEST_COUNT);
            }
            Change::Clear { panel } => self.counters[panel as usize - 1] = 0,
            Change::Test { panel, number, on } => set_number(&mut self.tests, panel, number, on),
        }
    }
}

// Sets or clears the bit of a number in the mask of a panel.
fn set_number(masks: &mut [u32; 8], panel: u8, number: u8, on: bool)
    requires panel { IsPanelNumber panel }
    requires number { IsNumber number }
    ensures { masks.new ≡ with_number masks.old panel number on }
{
    let mask = &mut masks[panel as usize - 1];
    *mask = with_bit_32(*mask, number - 1, on);
}

/// Whether the bit of a number is set in the mask of a panel.
pub fn has_number(masks: &[u32; 8], panel: u8, number: u8) -> bool
    requires panel { IsPanelNumber panel }
    requires number { IsNumber number }
    ensures { result ≡ has_bit (slice_index masks.now (panel - 1)) (number - 1) }
{
    has_bit_32(masks[panel as usize - 1], number - 1)
}
