//! The zones, outputs and points of a panel by their numbers, and masks of the numbers that pass a test.

ghost use Rattle.std.specs.Prelude.{◌≡◌, ◌≤◌, ◌+◌, ℕ};
ghost use Rattle.coincidence_rules.specs.Places.{numbered};
ghost use Rattle.panel_conditions.specs.Points.{addressed};
ghost use Rattle.panel_rules.specs.Outputs.{output_numbered};
ghost use Rattle.plain_history.specs.Numbers.{TellsAddresses, TellsHalves, TellsNumbers};

use site_types::{PointSet, Site, mask_from_32, mask_from_128};

/// The place of the zone of a panel that has a number.
pub fn zone_at(site: &Site, panel: u8, number: u8) -> Option<usize>
    ensures { result ≡ numbered site.now panel number }
{
    site.zones
        .as_slice()
        .iter()
        .position(|zone| zone.panel == panel && zone.number == number)
}

/// The place of the output of a panel that has a number.
pub fn output_at(site: &Site, panel: u8, number: u8) -> Option<usize>
    ensures { result ≡ output_numbered site.now panel number }
{
    site.outputs
        .as_slice()
        .iter()
        .position(|output| output.panel == panel && output.number == number)
}

/// The place of the point of a panel that has a line and an address.
pub fn point_at(site: &Site, panel: u8, line: u8, address: u8) -> Option<usize>
    ensures { result ≡ addressed site.now panel line address }
{
    site.points.as_slice().iter().position(|point| point.panel == panel
        && point.line == line
        && point.address == address)
}

/// The mask of the numbers 1 to 32 that pass a test: bit `number - 1` is the number.
pub fn numbers_that<F: Fn(u8) -> bool>(test: F) -> u32
    requires { F.IsAlwaysCallable test }
    ensures { TellsNumbers (F.post test) result }
{
    let mut flags = [false; 32];
    for bit in 0..32u8 {
        flags[bit as usize] = test(bit + 1);
    }
    mask_from_32(&flags)
}

/// The mask of the 96 addresses that come after so many and pass a test, the first of them being bit 0.
pub fn addresses_that<F: Fn(u8) -> bool>(past: u8, test: F) -> u128
    requires address { past ≤ 96 }
    requires callable { F.IsAlwaysCallable test }
    ensures { TellsAddresses past (F.post test) result }
{
    let mut flags = [false; 96];
    for bit in 0..96u8 {
        flags[bit as usize] = test(past + bit + 1);
    }
    mask_from_128(&flags)
}

/// The set of the points that masks have: one mask for the addresses of a line up to 96, and one for those after.
pub fn points_in_halves<F: Fn(u8, u8) -> u128>(half: F) -> PointSet
    requires { (line past : ℕ) → past ≤ 96 → F.pre half line past }
    ensures { TellsHalves (F.post half) result }
{
    PointSet {
        loops: [
            [half(1, 0), half(1, 96)],
            [half(2, 0), half(2, 96)],
            [half(3, 0), half(3, 96)],
            [half(4, 0), half(4, 96)],
        ],
    }
}
