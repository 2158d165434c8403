//! Which outputs a turn of Drive switches on.

ghost use Rattle.std.specs.Prelude.{◌≡◌, ◌+◌, nat_le};
ghost use Rattle.std.specs.List.{list_any};
ghost use Rattle.site_types.specs.Valid.{IsValid};
ghost use Rattle.panel_rules.specs.Outputs.{asked_run, delay_of as delay_in, goes_on as goes_on_in};
ghost use Rattle.panel_rules.specs.Outputs.{is_sounder as is_sounder_in, may_act as may_act_in};
ghost use Rattle.panel_rules.specs.Outputs.{panel_of_output as panel_in};
ghost use Rattle.plain_history.specs.Histories.{all_done};
ghost use Rattle.plain_outputs.specs.Outputs.{TellsByAtDrive, TellsOf, TellsSilenced, ends_delay};

use crate::quiet::is_quiet;
use crate::requests::{is_requested, is_requested_by_hand, panel_of_output};
use crate::seen::Seen;
use crate::turns::is_turn;
use panel_settings::Setting;
use plain_history::{Settings, override_done_in};
use site_types::{OutputKind, Site};
use tick_units::{Task, Tick};

/// Whether an output is on after a turn of Drive of its panel in a tick, from what was seen before that turn,
/// and that turn too.
pub(crate) fn goes_on(
    settings: &Settings,
    output: u16,
    tick: Tick,
    before: &[Seen],
    turn: &[Seen],
) -> bool
    requires { IsValid settings.now.site.now }
    ensures { TellsByAtDrive settings.now output tick.0 before.now turn.now goes_on_in result }
{
    let is_off = settings.in_force(Setting::OutputOff(output as usize), tick);
    let is_silenced = is_silenced(settings, output, tick, turn);
    let may_act = may_act(settings, output, tick, before, turn);
    (is_requested(settings.site, output, before) && !is_off) && (!is_silenced && may_act)
}

// Whether a silence keeps an output quiet at a turn of Drive.
fn is_silenced(settings: &Settings, output: u16, tick: Tick, turn: &[Seen]) -> bool
    requires { IsValid settings.now.site.now }
    ensures { TellsSilenced settings.now.site.now output tick.0 (all_done settings.now.done.now)
        turn.now result }
{
    is_sounder(settings.site, output)
        && is_quiet(
            settings.site,
            settings.done,
            panel_of_output(settings.site, output),
            tick,
            turn,
        )
}

// Whether no delay holds an output back at a turn of Drive.
fn may_act(settings: &Settings, output: u16, tick: Tick, before: &[Seen], turn: &[Seen]) -> bool
    requires { IsValid settings.now.site.now }
    ensures { TellsByAtDrive settings.now output tick.0 before.now turn.now may_act_in result }
{
    let panel = panel_of_output(settings.site, output);
    (is_requested_by_hand(settings.site, output, before) || delay_of(settings.site, output) == 0)
        || (settings.in_force(Setting::DelaysOff(panel), tick)
            || is_over(settings, output, tick, turn))
}

// Whether from some tick of the run of turns that asked for an output its delay has passed, or an override was done.
fn is_over(settings: &Settings, output: u16, tick: Tick, seen: &[Seen]) -> bool
    requires { IsValid settings.now.site.now }
    ensures { TellsOf settings.now.site.now seen.now (λ facts history.
        list_any (ends_delay settings.now.site.now output tick.0 (all_done settings.now.done.now))
        (asked_run settings.now.site.now facts output history)) result }
{
    match seen {
        [] => false,
        [before @ .., last] => {
            let panel = panel_of_output(settings.site, output);
            if is_turn(&last.moment, panel, Task::Drive) {
                let delay = u64::from(delay_of(settings.site, output));
                let is_past = has_passed(last.tick, delay, tick)
                    || override_done_in(panel, last.tick, tick, settings.done);
                is_requested(settings.site, output, before)
                    && (is_past || is_over(settings, output, tick, before))
            } else {
                is_over(settings, output, tick, before)
            }
        }
    }
}

/// Whether so many ticks have passed from a first tick to another.
pub(crate) fn has_passed(first: Tick, ticks: u64, tick: Tick) -> bool
    ensures { result ≡ nat_le (first.0 + ticks) tick.0 }
{
    first.0 <= tick.0 && ticks <= tick.0 - first.0
}

fn delay_of(site: &Site, output: u16) -> u16
    ensures { result ≡ delay_in site.now output }
{
    match site.outputs.get(output as usize) {
        None => 0,
        Some(output) => output.delay,
    }
}

fn is_sounder(site: &Site, output: u16) -> bool
    ensures { result ≡ is_sounder_in site.now output }
{
    match site.outputs.get(output as usize) {
        None => false,
        Some(output) => matches!(output.kind, OutputKind::Sounder),
    }
}
