//! Which outputs are on, and for how long.

ghost use Rattle.std.specs.Prelude.{◌≡◌, ◌+◌, ℕ, List, nat_le, option_map};
ghost use Rattle.std.specs.List.{list_any};
ghost use Rattle.tick_units.specs.declared.tick.Tick.{Tick as TickOf};
ghost use Rattle.site_types.specs.Valid.{IsValid};
ghost use Rattle.site_types.specs.declared.site.Site.{Site as SiteOf};
ghost use Rattle.panel_rules.specs.Markers.{Facts as FactsOf};
ghost use Rattle.panel_rules.specs.Moments.{Moment as MomentOf};
ghost use Rattle.panel_rules.specs.Outputs.{confirmations, is_on as is_on_in, on_run, panel_of_output as panel_in};
ghost use Rattle.plain_outputs.specs.Drives.{AreSeen, greatest, is_confirmation, is_turn_of, newest};
ghost use Rattle.plain_history.specs.Histories.{moment_of};
ghost use Rattle.plain_outputs.specs.Outputs.{TellsBy};

use crate::acting::{goes_on, has_passed};
use crate::requests::panel_of_output;
use crate::seen::Seen;
use crate::turns::is_turn;
use plain_history::{Moment, Settings};
use site_types::{Event, Site};
use tick_units::{Task, Tick};

/// Whether an output is on after the latest turn of Drive of its panel.
pub(crate) fn is_on(settings: &Settings, output: u16, seen: &[Seen]) -> bool
    requires { IsValid settings.now.site.now }
    ensures { TellsBy settings.now output seen.now is_on_in result }
{
    match seen {
        [] => false,
        [before @ .., last] => {
            if is_own_drive(settings.site, output, &last.moment) {
                goes_on(settings, output, last.tick, before, seen)
            } else {
                is_on(settings, output, before)
            }
        }
    }
}

/// The tick of the latest turn of Drive after which an output was on, if it has been on since.
pub(crate) fn latest_on(settings: &Settings, output: u16, seen: &[Seen]) -> Option<Tick>
    requires { IsValid settings.now.site.now }
    ensures { TellsBy settings.now output seen.now
        (λ site facts kept done output history. newest (on_run site facts kept done output history))
        (option_map (λ (tick : TickOf). tick.0) result) }
{
    match seen {
        [] => None,
        [before @ .., last] => {
            if is_own_drive(settings.site, output, &last.moment) {
                if goes_on(settings, output, last.tick, before, seen) {
                    Some(last.tick)
                } else {
                    None
                }
            } else {
                latest_on(settings, output, before)
            }
        }
    }
}

/// Whether an output has been on since so many ticks before a tick.
pub(crate) fn was_on_for(
    settings: &Settings,
    output: u16,
    ticks: u64,
    tick: Tick,
    seen: &[Seen],
) -> bool
    requires { IsValid settings.now.site.now }
    ensures { TellsBy settings.now output seen.now (λ site facts kept done output history.
        list_any (λ first. nat_le (first + ticks) tick.0)
        (on_run site facts kept done output history)) result }
{
    match seen {
        [] => false,
        [before @ .., last] => {
            if is_own_drive(settings.site, output, &last.moment) {
                goes_on(settings, output, last.tick, before, seen)
                    && (has_passed(last.tick, ticks, tick)
                        || was_on_for(settings, output, ticks, tick, before))
            } else {
                was_on_for(settings, output, ticks, tick, before)
            }
        }
    }
}

// Whether a moment is a turn of Drive of an output's panel.
fn is_own_drive(site: &Site, output: u16, moment: &Moment) -> bool
    ensures { result ≡ is_turn_of (panel_in site.now output) Task.Drive (moment_of moment.now) }
{
    is_turn(moment, panel_of_output(site, output), Task::Drive)
}

/// The last tick in which an output was confirmed from outside, else 0.
pub(crate) fn last_confirmation(output: u16, seen: &[Seen]) -> Tick
    ensures { (site : SiteOf) (facts : ℕ → List MomentOf → FactsOf) (history : List MomentOf)
        → AreSeen site facts seen.now history → result.0 ≡ greatest (confirmations output history) }
{
    let mut last = Tick(0);
    for one in seen {
        if confirms(output, &one.moment) && last.0 < one.tick.0 {
            last = one.tick;
        }
    }
    last
}

// Whether a moment confirms an output.
fn confirms(output: u16, moment: &Moment) -> bool
    ensures { result ≡ is_confirmation output (moment_of moment.now) }
{
    match *moment {
        Moment::Happened(Event::Confirmed { output: other }) => other == output,
        _ => false,
    }
}
