//! What befalls the site by a line.

ghost use Rattle.std.specs.Prelude.{◌≡◌, option_map, IfSome};
ghost use Rattle.record_lines.specs.Events.{cable_of, code_in, event_of, event_view, item_of, link_of, op_of};
ghost use Rattle.record_lines.specs.Events.{operation_of, output_of, point_of, supply_of, zone_of};
ghost use Rattle.record_lines.specs.ReadBack.{HasCode, IsCode};
ghost use Rattle.site_types.specs.Valid.{IsValid};

use crate::form::{Action, EventForm, Kind};
use line_fields::{field, read_octet};
use site_types::{Event, Item, Label, Operation, PieceState, Site, SupplyKind, Thing, read_code};

/// The event of a line whose fixed words and numbers are of their forms. Where a name or a number names
/// nothing there is none.
pub fn read_event(site: &Site, form: EventForm, text: &[u8]) -> Option<Event>
    requires { IsValid site.now }
    ensures event { option_map event_view result ≡ event_of site.now form text.now }
    ensures code { IfSome result HasCode }
{
    match form {
        EventForm::Point(state) => match find_point(site, field(text, 1)) {
            Some(point) => Some(Event::Point { point, state }),
            None => None,
        },
        EventForm::Cable(state) => cable(state, text),
        EventForm::Supply(kind, bad) => supply(kind, bad, text),
        EventForm::Link(up) => link(up, text),
        EventForm::Routing => match find_output(site, field(text, 1)) {
            Some(output) => Some(Event::Confirmed { output }),
            None => None,
        },
        EventForm::Op(action) => op(site, action, text),
    }
}

fn cable(state: PieceState, text: &[u8]) -> Option<Event>
    ensures event { result ≡ cable_of state text.now }
    ensures code { IfSome result HasCode }
{
    let panel = read_octet(field(text, 1))?;
    let line = read_octet(field(text, 2))?;
    let piece = read_octet(field(text, 3))?;
    Some(Event::Cable {
        panel,
        line,
        piece,
        state,
    })
}

fn supply(kind: SupplyKind, bad: bool, text: &[u8]) -> Option<Event>
    ensures event { result ≡ supply_of kind bad text.now }
    ensures code { IfSome result HasCode }
{
    let panel = read_octet(field(text, 1))?;
    Some(Event::Supply { panel, kind, bad })
}

fn link(up: bool, text: &[u8]) -> Option<Event>
    ensures event { result ≡ link_of up text.now }
    ensures code { IfSome result HasCode }
{
    let link = read_octet(field(text, 1))?;
    Some(Event::Link { link, up })
}

fn op(site: &Site, action: Action, text: &[u8]) -> Option<Event>
    requires { IsValid site.now }
    ensures event { option_map event_view result ≡ op_of site.now action text.now }
    ensures code { IfSome result HasCode }
{
    let panel = read_octet(field(text, 1))?;
    let operation = operation(site, action, text)?;
    Some(Event::Op {
        panel,
        code: code(field(text, 2)),
        operation,
    })
}

// The code of a field that has a code's form; none for `-`.
fn code(text: &[u8]) -> Option<Label>
    ensures bytes { option_map (λ label. label.bytes) result ≡ code_in text.now }
    ensures form { IsCode result }
{
    read_code(text)
}

fn operation(site: &Site, action: Action, text: &[u8]) -> Option<Operation>
    requires { IsValid site.now }
    ensures { result ≡ operation_of site.now action text.now }
{
    match action {
        Action::Plain(operation) => Some(operation),
        Action::Cancel => match find_zone(site, field(text, 4)) {
            Some(zone) => Some(Operation::Cancel(zone)),
            None => None,
        },
        Action::Test => match find_zone(site, field(text, 4)) {
            Some(zone) => Some(Operation::Test(zone)),
            None => None,
        },
        Action::Untest => match find_zone(site, field(text, 4)) {
            Some(zone) => Some(Operation::Untest(zone)),
            None => None,
        },
        Action::Disable(kind) => match find_item(site, kind, field(text, 5)) {
            Some(item) => Some(Operation::Disable(item)),
            None => None,
        },
        Action::Enable(kind) => match find_item(site, kind, field(text, 5)) {
            Some(item) => Some(Operation::Enable(item)),
            None => None,
        },
    }
}

fn find_item(site: &Site, kind: Kind, name: &[u8]) -> Option<Item>
    requires { IsValid site.now }
    ensures { result ≡ item_of site.now kind name.now }
{
    match kind {
        Kind::Point => match find_point(site, name) {
            Some(point) => Some(Item::Point(point)),
            None => None,
        },
        Kind::Zone => match find_zone(site, name) {
            Some(zone) => Some(Item::Zone(zone)),
            None => None,
        },
        Kind::Output => match find_output(site, name) {
            Some(output) => Some(Item::Output(output)),
            None => None,
        },
    }
}

/// The point with a name.
pub(crate) fn find_point(site: &Site, name: &[u8]) -> Option<u16>
    requires { IsValid site.now }
    ensures { result ≡ point_of site.now name.now }
{
    match site.find(name) {
        Some(Thing::Point(place)) => Some(place),
        _ => None,
    }
}

fn find_zone(site: &Site, name: &[u8]) -> Option<u16>
    requires { IsValid site.now }
    ensures { result ≡ zone_of site.now name.now }
{
    match site.find(name) {
        Some(Thing::Zone(place)) => Some(place),
        _ => None,
    }
}

fn find_output(site: &Site, name: &[u8]) -> Option<u16>
    requires { IsValid site.now }
    ensures { result ≡ output_of site.now name.now }
{
    match site.find(name) {
        Some(Thing::Output(place)) => Some(place),
        _ => None,
    }
}
