ghost use Rattle.std.specs.Prelude.{◌≡◌};
ghost use Rattle.std.specs.Int.{w8};
ghost use Rattle.site_types.specs.declared.change.Change.TheVariants.{Clear as ClearChange, Delays as DelaysChange};
ghost use Rattle.site_types.specs.Bits.{with_bit};
ghost use Rattle.site_types.specs.Changes.{changed, changed_by};
ghost use Rattle.site_types.specs.Valid.{IsValid};
ghost use Rattle.panel_rules.specs.Batches.{changes_of};
ghost use Rattle.plain_operations.specs.Desks.{all_requests};
ghost use Rattle.plain_operations.specs.Storing.{HasPlace, MakesChange};

use crate::request::Request;
use site_types::{Change, Retained, Site, with_bit_8};

/// Makes the changes of operations that wait, the first of them first.
pub fn make_changes(site: &Site, waiting: &[Request], stored: &mut Retained)
    requires { IsValid site.now }
    ensures { stored.new ≡ changed_by (changes_of site.now (all_requests waiting.now)) stored.old }
{
    for request in waiting {
        make_change_of(site, request, stored);
    }
}

// Makes the change of an operation, if it makes one.
fn make_change_of(site: &Site, request: &Request, stored: &mut Retained)
    requires { IsValid site.now }
    ensures { MakesChange site.now request.now.panel request.now.operation stored.old stored.new }
{
    match site.change_of(request.panel, &request.operation) {
        Some(change) => make_change(stored, &change),
        None => {}
    }
}

/// Makes a change. A panel that there isn't changes nothing, but panel 0 counts as panel 1.
pub fn make_change(stored: &mut Retained, change: &Change)
    requires { HasPlace change.now }
    ensures { stored.new ≡ changed change.now stored.old }
{
    match *change {
        Change::Delays { panel, off } => set_delays(stored, panel, off),
        Change::Clear { panel } => clear(stored, panel),
        Change::Point { .. }
        | Change::Zone { .. }
        | Change::Output { .. }
        | Change::Count { .. }
        | Change::Test { .. } => stored.apply(change),
    }
}

fn set_delays(stored: &mut Retained, panel: u8, off: bool)
    ensures { stored.new ≡ changed (DelaysChange panel off) stored.old }
{
    stored.delays_off = with_place(stored.delays_off, panel.saturating_sub(1), off);
}

// The mask with a bit set or cleared, if it has the bit.
fn with_place(mask: u8, place: u8, on: bool) -> u8
    ensures { result ≡ with_bit w8 mask place on }
{
    if place < 8 {
        with_bit_8(mask, place, on)
    } else {
        mask
    }
}

fn clear(stored: &mut Retained, panel: u8)
    ensures { stored.new ≡ changed (ClearChange panel) stored.old }
{
    let place = panel.saturating_sub(1) as usize;
    if place < 8 {
        stored.counters[place] = 0;
    }
}
