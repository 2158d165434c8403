ghost use Rattle.std.specs.Prelude.{◌≡◌, ◌≤◌, ◌<◌, ◌+◌, ◌-◌, ◌*◌};
ghost use Rattle.site_types.specs.Valid.{IsTerm, IsValid};
ghost use Rattle.marker_table.specs.Table.{input_bit, input_of, input_word};

use crate::readings::{FAULTS_FROM, MANUAL_FROM, MARKERS_FROM};
use site_types::{Site, Term, Zone};

/// What a term looks at: one bit of the facts, or a marker.
#[derive(Clone, Copy, Debug, PartialEq, Eq)]
pub enum Input {
    /// The zone at this place among the 256 of all panels, 32 for each.
    Zone(u8),
    /// The manual call points of the zone at this place among the 256.
    Manual(u8),
    /// The panel with this number less one.
    Fault(u8),
    /// The marker at this place.
    Marker(u8),
}

impl Input {
    /// What a term of the site looks at.
    pub fn of(site: &Site, term: Term) -> Input
        requires valid { IsValid site.now }
        requires term { IsTerm site.now term }
        ensures { result ≡ input_of site.now term }
    {
        match term {
            Term::Zone(place) => Input::Zone(index_of(&site.zones.as_slice()[place as usize])),
            Term::Manual(place) => Input::Manual(index_of(&site.zones.as_slice()[place as usize])),
            Term::Fault(panel) => Input::Fault(panel - 1),
            Term::Marker(place) => Input::Marker(place as u8),
        }
    }

    // Which of the readings has it.
    pub(crate) fn word(self) -> u8
        ensures value { result ≡ input_word self }
        ensures small { result < 32 }
    {
        match self {
            Input::Zone(place) => place / 32,
            Input::Manual(place) => MANUAL_FROM as u8 + place / 32,
            Input::Fault(_) => FAULTS_FROM as u8,
            Input::Marker(place) => MARKERS_FROM as u8 + place / 32,
        }
    }

    // The input's bit in its word of a mask.
    pub(crate) fn bit(self) -> u8
        ensures { result ≡ input_bit self }
    {
        match self {
            Input::Zone(place)
            | Input::Manual(place)
            | Input::Fault(place)
            | Input::Marker(place) => place % 32,
        }
    }
}

// The place of a zone among the 256 of all panels.
fn index_of(zone: &Zone) -> u8
    requires panel { (1 ≤ zone.now.panel) × (zone.now.panel ≤ 8) }
    requires number { (1 ≤ zone.now.number) × (zone.now.number ≤ 32) }
    ensures { result ≡ 32 * (zone.now.panel - 1) + (zone.now.number - 1) }
{
    32 * (zone.panel - 1) + (zone.number - 1)
}
