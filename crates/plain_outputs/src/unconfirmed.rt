//! Which outputs are confirmed, and which wait for too long.

ghost use Rattle.std.specs.Prelude.{◌≡◌, slice_get};
ghost use Rattle.site_types.specs.Events.{is_confirming};
ghost use Rattle.site_types.specs.Profile.{routing_of};
ghost use Rattle.site_types.specs.Valid.{IsValid};
ghost use Rattle.panel_rules.specs.Faults.{is_unconfirmed as is_unconfirmed_in};
ghost use Rattle.panel_rules.specs.Outputs.{has_lasted as has_lasted_in, is_confirmed_out, on_output, on_run};
ghost use Rattle.plain_outputs.specs.Outputs.{TellsBy};

use crate::on::{last_confirmation, latest_on, was_on_for};
use crate::seen::Seen;
use plain_history::Settings;
use site_types::Site;

/// Whether an output that asks for a confirmation has been on for too long without one.
pub(crate) fn is_unconfirmed(settings: &Settings, output: u16, seen: &[Seen]) -> bool
    requires { IsValid settings.now.site.now }
    ensures { TellsBy settings.now output seen.now is_unconfirmed_in result }
{
    asks_for_confirmation(settings.site, output)
        && (has_lasted(settings, output, seen) && !is_confirmed(settings, output, seen))
}

/// Whether an output was confirmed while it was on, and has been on since.
pub(crate) fn is_confirmed(settings: &Settings, output: u16, seen: &[Seen]) -> bool
    requires { IsValid settings.now.site.now }
    ensures { TellsBy settings.now output seen.now is_confirmed_out result }
{
    let confirmed = last_confirmation(output, seen);
    confirmed.0 > 0 && was_on_for(settings, output, 1, confirmed, seen)
}

// Whether an output has been on for as long as a confirmation may take.
fn has_lasted(settings: &Settings, output: u16, seen: &[Seen]) -> bool
    requires { IsValid settings.now.site.now }
    ensures { TellsBy settings.now output seen.now (λ site facts kept done output history.
        has_lasted_in (routing_of site.format) (on_run site facts kept done output history))
        result }
{
    let limit = settings.site.profile().routing();
    match latest_on(settings, output, seen) {
        None => false,
        Some(latest) => was_on_for(settings, output, limit, latest, seen),
    }
}

fn asks_for_confirmation(site: &Site, output: u16) -> bool
    ensures { result ≡ on_output (λ o. is_confirming o.kind) (slice_get site.now.outputs output) }
{
    match site.outputs.get(output as usize) {
        None => false,
        Some(output) => output.kind.is_confirming(),
    }
}
