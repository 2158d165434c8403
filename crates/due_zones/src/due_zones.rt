//! The zones that are due at a panel, as masks by panel.

ghost use Rattle.std.specs.Prelude.{◌≡◌, ◌≤◌, ◌<◌, length};
ghost use Rattle.site_types.specs.Valid.{IsValid};
ghost use Rattle.due_zones.specs.Telling.{TellsDue, TellsDueAtEach, TellsOneMore};

use crate::least_signals::LeastSignals;
use crate::reach::Reach;
use asked_markers::with_zone;
use joined_panels::JoinedPanels;
use site_types::Site;
use tick_units::Tick;

/// The zones that are due at a panel, by panel, bit `number - 1` each.
#[derive(Clone, Copy)]
pub struct DueZones {
    /// To be shown.
    pub shown: [u32; 8],
    /// To be released.
    pub out: [u32; 8],
    pub by_hand: [u32; 8],
}

impl DueZones {
    pub const NONE: DueZones = DueZones {
        shown: [0; 8],
        out: [0; 8],
        by_hand: [0; 8],
    };
}

/// The zones that are due at a panel at the end of a tick.
pub fn due_at(
    site: &Site,
    joined: &JoinedPanels,
    now: Tick,
    signals: &[LeastSignals],
    panel: u8,
) -> DueZones
    requires valid { IsValid site.now }
    requires panel { (1 ≤ panel) × (panel ≤ 8) }
    requires each { length signals.now ≡ length site.now.zones }
    ensures { TellsDue site.now joined.now now.0 signals.now panel result }
{
    let mut due = DueZones::NONE;
    for place in 0..site.zones.len() {
        due = with_due(due, site, joined, now, &signals[place], place, panel);
    }
    due
}

// The zones before a place and the one at it.
fn with_due(
    due: DueZones,
    site: &Site,
    joined: &JoinedPanels,
    now: Tick,
    signal: &LeastSignals,
    place: usize,
    panel: u8,
) -> DueZones
    requires valid { IsValid site.now }
    requires panel { (1 ≤ panel) × (panel ≤ 8) }
    requires within { place < length site.now.zones }
    ensures { TellsOneMore site.now joined.now now.0 signal.now panel place due result }
{
    if signal.is_none() {
        return due;
    }
    let zone = &site.zones.as_slice()[place];
    let reach = Reach {
        format: site.format,
        tick: now.0,
        own: zone.panel == panel,
        window: joined.latest_window(zone.panel, panel),
    };
    DueZones {
        shown: with_zone(due.shown, zone, reach.is_due(signal.shown)),
        out: with_zone(due.out, zone, reach.is_due(signal.out)),
        by_hand: with_zone(due.by_hand, zone, reach.is_due(signal.by_hand)),
    }
}

/// The zones that are due at each panel of the site, that of panel 1 first.
pub fn due_at_each(
    site: &Site,
    joined: &JoinedPanels,
    now: Tick,
    signals: &[LeastSignals],
) -> [DueZones; 8]
    requires valid { IsValid site.now }
    requires each { length signals.now ≡ length site.now.zones }
    ensures { TellsDueAtEach site.now joined.now now.0 signals.now result }
{
    let mut each = [DueZones::NONE; 8];
    for place in 0..8 {
        each[place as usize] = due_at(site, joined, now, signals, place + 1);
    }
    each
}
