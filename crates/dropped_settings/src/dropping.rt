//! The lines of what is dropped.

ghost use Rattle.std.specs.Prelude.{◌≡◌, ◌≤◌, ◌++◌, IfOk};
ghost use Rattle.dropped_settings.specs.Dropped.{counter_lines, delays_lines, output_lines, panels_of, point_lines};
ghost use Rattle.dropped_settings.specs.Dropped.{test_lines, zone_lines};
ghost use Rattle.site_types.specs.Limits.{most_panels};
ghost use Rattle.site_types.specs.Valid.{IsValid};

use crate::lines::{Pushed, push_counter, push_delays, push_named};
use crate::telling::{
    are_dropped_delays, is_dropped_counter, is_dropped_output, is_dropped_point, is_dropped_test,
    is_dropped_zone,
};
use site_types::{Retained, Site};

/// Puts the lines of the disabled points that the new site hasn't behind a text.
pub fn push_points(text: &mut Vec<u8>, old: &Site, new: &Site, kept: &Retained) -> Pushed
    requires old_valid { IsValid old.now }
    requires new_valid { IsValid new.now }
    ensures { IfOk result (λ _. text.new.items ≡ text.old.items
        ++ point_lines new.now kept.now old.now.points) }
{
    for point in old.points.as_slice() {
        let is_dropped = is_dropped_point(new, kept, point);
        push_named(text, is_dropped, "point", point.name.as_str())?;
    }
    Ok(())
}

/// Puts the lines of the disabled zones that the new site hasn't behind a text.
pub fn push_zones(text: &mut Vec<u8>, old: &Site, new: &Site, kept: &Retained) -> Pushed
    requires old_valid { IsValid old.now }
    requires new_valid { IsValid new.now }
    ensures { IfOk result (λ _. text.new.items ≡ text.old.items
        ++ zone_lines new.now kept.now old.now.zones) }
{
    for zone in old.zones.as_slice() {
        let is_dropped = is_dropped_zone(new, kept, zone);
        push_named(text, is_dropped, "zone", zone.name.as_str())?;
    }
    Ok(())
}

/// Puts the lines of the disabled outputs that the new site hasn't behind a text.
pub fn push_outputs(text: &mut Vec<u8>, old: &Site, new: &Site, kept: &Retained) -> Pushed
    requires old_valid { IsValid old.now }
    requires new_valid { IsValid new.now }
    ensures { IfOk result (λ _. text.new.items ≡ text.old.items
        ++ output_lines new.now kept.now old.now.outputs) }
{
    for output in old.outputs.as_slice() {
        let is_dropped = is_dropped_output(new, kept, output);
        push_named(text, is_dropped, "output", output.name.as_str())?;
    }
    Ok(())
}

/// Puts the lines of the zones in test that the new site hasn't behind a text.
pub fn push_tests(text: &mut Vec<u8>, old: &Site, new: &Site, kept: &Retained) -> Pushed
    requires old_valid { IsValid old.now }
    requires new_valid { IsValid new.now }
    ensures { IfOk result (λ _. text.new.items ≡ text.old.items
        ++ test_lines new.now kept.now old.now.zones) }
{
    for zone in old.zones.as_slice() {
        let is_dropped = is_dropped_test(new, kept, zone);
        push_named(text, is_dropped, "test", zone.name.as_str())?;
    }
    Ok(())
}

/// Puts the lines of the delays that are off at panels that the new site hasn't behind a text.
pub fn push_delays_off(text: &mut Vec<u8>, old: &Site, new: &Site, kept: &Retained) -> Pushed
    requires { old.now.panels ≤ most_panels }
    ensures { IfOk result (λ _. text.new.items ≡ text.old.items
        ++ delays_lines new.now kept.now (panels_of old.now)) }
{
    for place in 0..old.panels {
        let panel = place + 1;
        let is_dropped = are_dropped_delays(new, kept, panel);
        push_delays(text, is_dropped, panel)?;
    }
    Ok(())
}

/// Puts the lines of the counters above 0 of panels that the new site hasn't behind a text.
pub fn push_counters(text: &mut Vec<u8>, old: &Site, new: &Site, kept: &Retained) -> Pushed
    requires { old.now.panels ≤ most_panels }
    ensures { IfOk result (λ _. text.new.items ≡ text.old.items
        ++ counter_lines new.now kept.now (panels_of old.now)) }
{
    for place in 0..old.panels {
        let panel = place + 1;
        let is_dropped = is_dropped_counter(new, kept, panel);
        push_counter(text, is_dropped, panel, kept)?;
    }
    Ok(())
}
