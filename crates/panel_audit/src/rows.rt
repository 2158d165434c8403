//! From which tick on each zone has a signal.

ghost use Rattle.std.specs.Prelude.{◌≡◌, length, IfOk};
ghost use Rattle.panel_audit.specs.Rows.{TellsRows};

use due_zones::LeastSignals;
use site_types::Site;
use std::alloc::Global;
use tick_units::NoMemory;
use zone_signals::ZoneSignals;

const NO_SIGNALS: LeastSignals = LeastSignals {
    shown: None,
    out: None,
    by_hand: None,
};

/// So many rows without a signal.
pub(crate) fn no_rows(alloc: Global, count: usize) -> Result<Vec<LeastSignals>, NoMemory>
    ensures { IfOk result (λ rows. length rows.items ≡ count) }
{
    let rows = vec![in alloc; NO_SIGNALS; count]?;
    Ok(rows)
}

/// Tells each zone's signals anew.
pub(crate) fn fill_rows(rows: &mut [LeastSignals], site: &Site, least: &ZoneSignals)
    ensures size { length rows.new ≡ length rows.old }
    ensures tells { length rows.old ≡ length site.now.zones
        → TellsRows site.now least.now rows.new }
{
    for place in 0..rows.len() {
        rows[place] = LeastSignals {
            shown: least.settled(place),
            out: least.settled_out(site, place),
            by_hand: least.settled_by_hand(place),
        };
    }
}
