//! The fixed words of lines as they are printed.

ghost use Rattle.std.specs.Prelude.{◌≡◌, ◌≤◌, length};
ghost use Rattle.record_lines.specs.Printed.{bad_word as word_of_bad, letter_of, name_text, on_word as word_of_on};
ghost use Rattle.record_lines.specs.Printed.{piece_state_word as word_of_piece, point_state_word as word_of_point};
ghost use Rattle.record_lines.specs.Printed.{supply_word as word_of_supply, up_word as word_of_up};
ghost use Rattle.site_types.specs.declared.named.Thing.TheVariants.{Point as PointThing, Zone as ZoneThing};
ghost use Rattle.site_types.specs.declared.named.Thing.TheVariants.{Output as OutputThing};

use site_types::{PieceState, PointState, Site, SupplyKind};
use tick_units::Task;

pub fn point_state_word(state: PointState) -> &'static [u8]
    ensures word { result.now ≡ word_of_point state }
    ensures short { length result.now ≤ 16 }
{
    match state {
        PointState::Quiet => b"quiet",
        PointState::Alarm => b"alarm",
        PointState::Gone => b"gone",
    }
}

pub fn piece_state_word(state: PieceState) -> &'static [u8]
    ensures word { result.now ≡ word_of_piece state }
    ensures short { length result.now ≤ 16 }
{
    match state {
        PieceState::Sound => b"sound",
        PieceState::Open => b"open",
        PieceState::Short => b"short",
    }
}

pub fn supply_word(kind: SupplyKind) -> &'static [u8]
    ensures word { result.now ≡ word_of_supply kind }
    ensures short { length result.now ≤ 16 }
{
    match kind {
        SupplyKind::Mains => b"mains",
        SupplyKind::Standby => b"standby",
        SupplyKind::Voltage => b"voltage",
        SupplyKind::Charger => b"charger",
    }
}

pub fn bad_word(bad: bool) -> &'static [u8]
    ensures word { result.now ≡ word_of_bad bad }
    ensures short { length result.now ≤ 16 }
{
    if bad { b"bad" } else { b"ok" }
}

pub fn up_word(up: bool) -> &'static [u8]
    ensures word { result.now ≡ word_of_up up }
    ensures short { length result.now ≤ 16 }
{
    if up { b"up" } else { b"down" }
}

pub fn on_word(on: bool) -> &'static [u8]
    ensures word { result.now ≡ word_of_on on }
    ensures short { length result.now ≤ 16 }
{
    if on { b"on" } else { b"off" }
}

/// The letter of a seat's task.
pub fn letter(task: Task) -> u8
    ensures { result ≡ letter_of task }
{
    match task {
        Task::Poll => b'p',
        Task::Decide => b'd',
        Task::Supply => b's',
        Task::Desk => b'o',
        Task::Hold => b'h',
        Task::Link => b'l',
        Task::Effect => b'e',
        Task::Drive => b'r',
        Task::Keep => b'k',
    }
}

/// The name of a point; empty where there is none. Those of zones and outputs follow.
pub fn point_name(site: &Site, place: u16) -> &[u8]
    ensures name { result.now ≡ name_text site.now (PointThing place) }
    ensures short { length result.now ≤ 16 }
{
    match site.points.get(place as usize) {
        Some(point) => point.name.as_str().as_bytes(),
        None => b"",
    }
}

pub fn zone_name(site: &Site, place: u16) -> &[u8]
    ensures name { result.now ≡ name_text site.now (ZoneThing place) }
    ensures short { length result.now ≤ 16 }
{
    match site.zones.get(place as usize) {
        Some(zone) => zone.name.as_str().as_bytes(),
        None => b"",
    }
}

pub fn output_name(site: &Site, place: u16) -> &[u8]
    ensures name { result.now ≡ name_text site.now (OutputThing place) }
    ensures short { length result.now ≤ 16 }
{
    match site.outputs.get(place as usize) {
        Some(output) => output.name.as_str().as_bytes(),
        None => b"",
    }
}
