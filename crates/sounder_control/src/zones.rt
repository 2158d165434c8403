//! Sets of zones, a mask for each of eight panels.

ghost use Rattle.std.specs.Prelude.{◌≡◌};
ghost use Rattle.sounder_control.specs.Quiet.{is_empty, is_within, keeps_quiet as keeps};

use site_types::without_32;

/// Whether no zone is in a set.
pub(crate) fn is_empty(zones: &[u32; 8]) -> bool
    ensures { result ≡ is_empty zones.now }
{
    for panel in 0..8 {
        let mask = zones[panel];
        if mask != 0 {
            return false;
        }
    }
    true
}

/// Whether each zone of a set is in another.
pub(crate) fn is_within(zones: &[u32; 8], others: &[u32; 8]) -> bool
    ensures { result ≡ is_within zones.now others.now }
{
    for panel in 0..8 {
        if without_32(zones[panel], others[panel]) != 0 {
            return false;
        }
    }
    true
}

/// Whether a silence that took these zones holds at a turn that finds others.
pub(crate) fn keeps_quiet(taken: &[u32; 8], zones: &[u32; 8]) -> bool
    ensures { result ≡ keeps taken.now zones.now }
{
    !is_empty(zones) && is_within(zones, taken)
}
