//! How a change turns a face, and whether a face shows what a change tells.

ghost use Rattle.std.specs.Prelude.{◌≡◌, ◌==◌, ◌≤◌};
ghost use Rattle.face_text.specs.Slots.{HasPlace, last_of, value_in};
ghost use Rattle.face_reading.specs.Entries.{slot_of, value_of};
ghost use Rattle.face_reading.specs.Telling.{IsPlaced, face_told, with_bit_of_panel, with_thing};

use crate::change::Change;
use face_text::{Face, Group, shows};
use site_types::{with_bit_8, with_bit_32};

/// Turns a face to what a change tells. A thing that the change names is one that a face has a place for.
pub fn tell(face: &mut Face, change: Change)
    requires { IsPlaced (slot_of change) }
    ensures { face.new ≡ face_told face.old change }
{
    match change {
        Change::Thing { group, number, on } => set_thing(face, group, number, on),
        Change::Delays(on) => face.delays_off = !on,
        Change::Buzzer(sound) => face.buzzer = sound,
        Change::Counter(count) => face.counter = count,
    }
}

/// Whether a face shows already what a change tells.
pub fn is_told(face: &Face, change: Change) -> bool
    requires { IsPlaced (slot_of change) }
    ensures { result ≡ (value_in face.now (slot_of change) == value_of change) }
{
    match change {
        Change::Thing { group, number, on } => shows(face, group, number) == on,
        Change::Delays(on) => face.delays_off != on,
        Change::Buzzer(sound) => face.buzzer == sound,
        Change::Counter(count) => face.counter == count,
    }
}

// Shows the thing of a group with a number, or shows it no more.
fn set_thing(face: &mut Face, group: Group, number: u8, on: bool)
    requires group { HasPlace group }
    requires number { (1 ≤ number) × (number ≤ last_of group) }
    ensures { face.new ≡ with_thing face.old group number on }
{
    let bit = number - 1;
    match group {
        Group::Zones(panel) => set_number(&mut face.zones, panel, number, on),
        Group::Firsts(panel) => set_number(&mut face.firsts, panel, number, on),
        Group::Missing(line) => face.faults.missing.set(line, number, on),
        Group::Broken => face.faults.broken = with_bit_8(face.faults.broken, bit, on),
        Group::Shorted => face.faults.shorted = with_bit_8(face.faults.shorted, bit, on),
        Group::Supplies => face.faults.supply = with_bit_8(face.faults.supply, bit, on),
        Group::Silent => face.faults.silent = with_bit_8(face.faults.silent, bit, on),
        Group::Links => face.faults.links = with_bit_8(face.faults.links, bit, on),
        Group::Unconfirmed => {
            face.faults.unconfirmed = with_bit_32(face.faults.unconfirmed, bit, on)
        }
        Group::Outputs => face.outputs = with_bit_32(face.outputs, bit, on),
        Group::Confirmed => face.confirmed = with_bit_32(face.confirmed, bit, on),
        Group::PointsOff(line) => face.points_off.set(line, number, on),
        Group::ZonesOff => face.zones_off = with_bit_32(face.zones_off, bit, on),
        Group::OutputsOff => face.outputs_off = with_bit_32(face.outputs_off, bit, on),
        Group::Tests => face.test = with_bit_32(face.test, bit, on),
    }
}

// Sets or clears the bit of a number in the mask of a panel.
fn set_number(masks: &mut [u32; 8], panel: u8, number: u8, on: bool)
    requires panel { (1 ≤ panel) × (panel ≤ 8) }
    requires number { (1 ≤ number) × (number ≤ 32) }
    ensures { masks.new ≡ with_bit_of_panel masks.old panel number on }
{
    let place = panel as usize - 1;
    masks[place] = with_bit_32(masks[place], number - 1, on);
}
