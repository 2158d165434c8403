//! What operations undo.

ghost use Rattle.std.specs.Prelude.{◌≡◌, slice_get};
ghost use Rattle.site_types.specs.Done.{moves_floor as moves_floor_of, cancels as cancels_of};
ghost use Rattle.coincidence_rules.specs.Places.{rule_of};
ghost use Rattle.blocked_points.specs.Operations.{as_done};
ghost use Rattle.caused_zones.specs.Marks.{AreEachAfter};
ghost use Rattle.caused_zones.specs.Undoing.{cause_unless, is_type_B, mark_unless};
ghost use Rattle.caused_zones.specs.Undoing.{undoes_at as undoes_by_rule, undoes_in as undoes_in_zone};

use crate::cause::Cause;
use crate::point_mark::PointMark;
use blocked_points::DoneOperation;
use site_types::{Item, Operation, Rule, Site};

/// Takes what an operation makes of the marks of points.
pub fn undo_marks(marks: &mut [PointMark], site: &Site, done: &DoneOperation)
    ensures { AreEachAfter (λ place mark. mark_unless
        (undoes_by_rule site.now place (as_done done.now)) mark) marks.old marks.new }
{
    for place in 0..marks.len() {
        if undoes_at(site, place, done) {
            marks[place] = PointMark::none();
        }
    }
}

/// Takes what it makes of the causes of zones.
pub fn undo_causes(causes: &mut [Cause], site: &Site, done: &DoneOperation)
    ensures { AreEachAfter (λ zone cause. cause_unless
        (moves_floor_of site.now zone (as_done done.now)) done.now.tick.0 cause)
        causes.old causes.new }
{
    for zone in 0..causes.len() {
        if moves_floor(site, zone, done) {
            causes[zone] = causes[zone].ended(done.tick.0);
        }
    }
}

// Whether an operation undoes what a point's answers gave to coincidences.
fn undoes_at(site: &Site, place: usize, done: &DoneOperation) -> bool
    ensures { result ≡ undoes_by_rule site.now place (as_done done.now) }
{
    match site.points.get(place) {
        None => false,
        Some(point) => undoes_in(site, point.zone as usize, done),
    }
}

fn undoes_in(site: &Site, zone: usize, done: &DoneOperation) -> bool
    ensures { result ≡ undoes_in_zone site.now zone (as_done done.now) }
{
    moves_floor(site, zone, done) || (is_type_b(site, zone) && cancels(zone, done))
}

fn is_type_b(site: &Site, zone: usize) -> bool
    ensures { result ≡ is_type_B (rule_of (slice_get site.now.zones zone)) }
{
    match site.zones.get(zone) {
        None => false,
        Some(plan) => match plan.rule {
            Rule::Plain => false,
            Rule::A { .. } => false,
            Rule::B { .. } => true,
            Rule::C => false,
        },
    }
}

fn cancels(zone: usize, done: &DoneOperation) -> bool
    ensures { result ≡ cancels_of zone (as_done done.now) }
{
    match done.operation {
        Operation::Cancel(other) => other as usize == zone,
        Operation::Disable(_) => false,
        Operation::Enable(_) => false,
        Operation::Test(_) => false,
        Operation::Untest(_) => false,
        Operation::Mute => false,
        Operation::Override => false,
        Operation::Silence => false,
        Operation::Resound => false,
        Operation::Reset => false,
        Operation::Delays(_) => false,
        Operation::Clear => false,
    }
}

fn moves_floor(site: &Site, zone: usize, done: &DoneOperation) -> bool
    ensures { result ≡ moves_floor_of site.now zone (as_done done.now) }
{
    match done.operation {
        Operation::Reset => is_of_panel(site, zone, done.panel),
        Operation::Disable(Item::Zone(other)) => other as usize == zone,
        Operation::Disable(Item::Point(_)) => false,
        Operation::Disable(Item::Output(_)) => false,
        Operation::Test(other) => other as usize == zone,
        Operation::Cancel(_) => false,
        Operation::Enable(_) => false,
        Operation::Untest(_) => false,
        Operation::Mute => false,
        Operation::Override => false,
        Operation::Silence => false,
        Operation::Resound => false,
        Operation::Delays(_) => false,
        Operation::Clear => false,
    }
}

ghost use Rattle.site_types.specs.Done.{is_of_panel as is_of_panel_by};

fn is_of_panel(site: &Site, zone: usize, panel: u8) -> bool
    ensures { result ≡ is_of_panel_by panel (slice_get site.now.zones zone) }
{
    match site.zones.get(zone) {
        None => false,
        Some(plan) => panel == plan.panel,
    }
}
