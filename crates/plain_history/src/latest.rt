//! The last overrides and silences of a panel.

ghost use Rattle.std.specs.Prelude.{◌≡◌, option_map};
ghost use Rattle.tick_units.specs.declared.tick.Tick.{Tick as TickOf};
ghost use Rattle.site_types.specs.Done.{is_override as is_overriding, override_done_in as override_in};
ghost use Rattle.site_types.specs.Done.{silence_before as last_silence, silence_then as silence_by};
ghost use Rattle.plain_history.specs.Histories.{all_done, done_of};
ghost use Rattle.plain_history.specs.Settings.{is_override_in as is_override_so, silence_after as silence_with};

use crate::done::Done;
use site_types::Operation;
use tick_units::Tick;

/// Whether an override was done at a panel in one of the ticks from the first on, and before a tick.
pub fn override_done_in(panel: u8, first: Tick, tick: Tick, done: &[Done]) -> bool
    ensures { result ≡ override_in panel first.0 tick.0 (all_done done.now) }
{
    let mut found = false;
    for one in done {
        found = found_after(panel, first, tick, one, found);
    }
    found
}

ghost use Rattle.std.specs.Prelude.{◌||◌};

fn found_after(panel: u8, first: Tick, tick: Tick, done: &Done, before: bool) -> bool
    ensures { result ≡ (is_override_so panel first.0 tick.0 (done_of done.now) || before) }
{
    is_override_in(panel, first, tick, done) || before
}

fn is_override_in(panel: u8, first: Tick, tick: Tick, done: &Done) -> bool
    ensures { result ≡ is_override_so panel first.0 tick.0 (done_of done.now) }
{
    done.panel == panel
        && is_override(done.operation)
        && first.0 <= done.tick.0
        && done.tick.0 < tick.0
}

fn is_override(operation: Operation) -> bool
    ensures { result ≡ is_overriding operation }
{
    matches!(operation, Operation::Override)
}

/// The tick of the silence that is the last silence or resound of a panel before a tick, if it is one.
pub fn silence_before(panel: u8, tick: Tick, done: &[Done]) -> Option<Tick>
    ensures { option_map (λ (at : TickOf). at.0) result ≡ last_silence panel tick.0
        (all_done done.now) }
{
    let mut silence = None;
    for one in done {
        silence = silence_after(panel, tick, one, silence);
    }
    silence
}

// The silence after one more operation.
fn silence_after(panel: u8, tick: Tick, done: &Done, before: Option<Tick>) -> Option<Tick>
    ensures { option_map (λ (at : TickOf). at.0) result
        ≡ silence_with panel tick.0 (done_of done.now) (option_map (λ (at : TickOf). at.0) before) }
{
    if done.panel == panel && done.tick.0 < tick.0 {
        silence_then(done.operation, done.tick, before)
    } else {
        before
    }
}

// For a silence its tick, for a resound none, for others what was.
fn silence_then(operation: Operation, tick: Tick, before: Option<Tick>) -> Option<Tick>
    ensures { option_map (λ (at : TickOf). at.0) result ≡ silence_by operation tick.0
        (option_map (λ (at : TickOf). at.0) before) }
{
    match operation {
        Operation::Silence => Some(tick),
        Operation::Resound => None,
        _ => before,
    }
}
