//! Whether the sounders of a panel are quiet.

ghost use Rattle.std.specs.Prelude.{◌≡◌, ◌<◌, ◌≤◌, ℕ, Bool, List, ◌∷◌, length, nat_le, not, ◌&&◌, slice_get, take};
ghost use Rattle.site_types.specs.Valid.{IsPanel, IsValid};
ghost use Rattle.site_types.specs.declared.site.Site.{Site as SiteOf};
ghost use Rattle.site_types.specs.declared.retained.Retained.{Retained as RetainedOf};
ghost use Rattle.marker_table.specs.Equations.{zone_bit};
ghost use Rattle.panel_rules.specs.Markers.{Facts as FactsOf};
ghost use Rattle.panel_rules.specs.Moments.{Moment as MomentOf, tick_of, up_to as up_to_in};
ghost use Rattle.panel_rules.specs.Outputs.{is_quiet as is_quiet_in, is_within as is_within_by};
ghost use Rattle.panel_rules.specs.Outputs.{some_zone as some_zone_in, stays_within as stays_within_in};
ghost use Rattle.plain_outputs.specs.Drives.{AreSeen};
ghost use Rattle.panel_bridges.specs.FactMasks.{AreZones};
ghost use Rattle.plain_history.specs.Histories.{all_done, moment_of};

use crate::requests::{released_at_drive, released_at_effect};
use crate::seen::Seen;
use crate::solved::has_zone;
use crate::turns::is_turn;
use plain_history::{Done, Moment, silence_before};
use site_types::Site;
use tick_units::{Task, Tick};

/// Whether a silence keeps the sounders of a panel quiet: since its tick no zone was released but those that
/// were then, and always one.
pub(crate) fn is_quiet(site: &Site, done: &[Done], panel: u8, tick: Tick, seen: &[Seen]) -> bool
    requires valid { IsValid site.now }
    requires panel { IsPanel site.now panel }
    ensures { (facts : ℕ → List MomentOf → FactsOf) (kept : RetainedOf) (history : List MomentOf)
        → AreSeen site.now facts seen.now history → tick.0 ≡ tick_of history
        → result ≡ is_quiet_in site.now facts kept (all_done done.now) panel history }
{
    match silence_before(panel, tick, done) {
        None => false,
        Some(since) => {
            let place = up_to(since, seen);
            let zones = released_at_drive(site, panel, &seen[..place]);
            stays_within(site, panel, since, &zones, seen)
        }
    }
}

// Whether at each turn of Drive after a tick the zones released had one, and were within a set.
fn stays_within(site: &Site, panel: u8, since: Tick, zones: &[u32; 8], seen: &[Seen]) -> bool
    requires valid { IsValid site.now }
    requires panel { IsPanel site.now panel }
    ensures { (facts : ℕ → List MomentOf → FactsOf) (history : List MomentOf) (test : ℕ → Bool)
        → AreSeen site.now facts seen.now history → AreZones site.now test zones.now
        → result ≡ stays_within_in site.now facts panel since.0 test history }
{
    match seen {
        [] => true,
        [before @ .., last] => {
            if is_turn(&last.moment, panel, Task::Drive) && since.0 < last.tick.0 {
                is_within(site, &released_at_effect(site, panel, before), zones)
                    && stays_within(site, panel, since, zones, before)
            } else {
                stays_within(site, panel, since, zones, before)
            }
        }
    }
}

// Whether a set of zones has a zone, and each of it is in another set.
fn is_within(site: &Site, zones: &[u32; 8], others: &[u32; 8]) -> bool
    requires { IsValid site.now }
    ensures { (test other : ℕ → Bool) → AreZones site.now test zones.now
        → AreZones site.now other others.now → result ≡ is_within_by site.now test other }
{
    some_zone(site, zones) && !some_zone_without(site, zones, others)
}

fn some_zone(site: &Site, zones: &[u32; 8]) -> bool
    requires { IsValid site.now }
    ensures { result ≡ some_zone_in site.now
        (λ zone. zone_bit zones.now (slice_get site.now.zones zone)) }
{
    (0..site.zones.len()).any(|zone| has_zone(site, zones, zone))
}

// Whether some zone is in a set and not in another.
fn some_zone_without(site: &Site, zones: &[u32; 8], others: &[u32; 8]) -> bool
    requires { IsValid site.now }
    ensures { result ≡ some_zone_in site.now
        (λ zone. zone_bit zones.now (slice_get site.now.zones zone)
        && not (zone_bit others.now (slice_get site.now.zones zone))) }
{
    (0..site.zones.len()).any(|zone| has_zone(site, zones, zone) && !has_zone(site, others, zone))
}

// How many moments came up to the end of a tick.
fn up_to(tick: Tick, seen: &[Seen]) -> usize
    ensures place { result ≤ length seen.now }
    ensures seen { (site : SiteOf) (facts : ℕ → List MomentOf → FactsOf) (history : List MomentOf)
        → AreSeen site facts seen.now history
        → AreSeen site facts (take result seen.now) (up_to_in tick.0 history) }
{
    match seen {
        [] => 0,
        [before @ .., last] => {
            if came_by(tick, last) {
                seen.len()
            } else {
                up_to(tick, before)
            }
        }
    }
}

// Whether a moment came by the end of a tick.
fn came_by(tick: Tick, last: &Seen) -> bool
    ensures { (past : List MomentOf) → last.now.tick.0 ≡ tick_of past
        → result ≡ nat_le (tick_of (moment_of last.now.moment ∷ past)) tick.0 }
{
    match last.moment {
        Moment::Began => last.tick.0 < tick.0,
        _ => last.tick.0 <= tick.0,
    }
}
