//! Which events are a panel's own.

ghost use Rattle.std.specs.Prelude.{◌≡◌, slice_get};
ghost use Rattle.node_inputs.specs.OwnEvents.{is_event_of, is_output_of, is_point_of};

use site_types::{Event, Site};

/// Whether an event befalls a panel alone: it is of one of its points, loops, supplies or outputs, or an operation at
/// it. A report on a link isn't.
pub fn is_own_event(site: &Site, panel: u8, event: &Event) -> bool
    ensures { result ≡ is_event_of site.now panel event.now }
{
    match *event {
        Event::Point { point, .. } => is_own_point(site, panel, point),
        Event::Cable { panel: other, .. } => other == panel,
        Event::Supply { panel: other, .. } => other == panel,
        Event::Link { .. } => false,
        Event::Confirmed { output } => is_own_output(site, panel, output),
        Event::Op { panel: other, .. } => other == panel,
    }
}

fn is_own_point(site: &Site, panel: u8, point: u16) -> bool
    ensures { result ≡ is_point_of panel (slice_get site.now.points point) }
{
    match site.points.as_slice().get(point as usize) {
        Some(plan) => plan.panel == panel,
        None => false,
    }
}

fn is_own_output(site: &Site, panel: u8, output: u16) -> bool
    ensures { result ≡ is_output_of panel (slice_get site.now.outputs output) }
{
    match site.outputs.as_slice().get(output as usize) {
        Some(plan) => plan.panel == panel,
        None => false,
    }
}
