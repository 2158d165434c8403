//! Faces in words: `nothing`, `everything`, or parts with commas between, which name things by their numbers.

ghost use Rattle.std.specs.Prelude.{◌<◌, IfSome};

use face_text::Face;
use site_types::{Buzzer, FaultSet, PointSet, with_bit_8, with_bit_32};

/// The face of a panel that a text spells.
pub(crate) fn face_of(panel: u8, text: &str) -> Option<Face> {
    match text {
        "nothing" => Some(Face::empty(panel)),
        "everything" => Some(whole_face(panel)),
        _ => {
            let mut face = Face::empty(panel);
            for part in text.split(", ") {
                set_part(&mut face, part)?;
            }
            Some(face)
        }
    }
}

// A face in which every bit is set, also those of things that a site hasn't.
fn whole_face(panel: u8) -> Face {
    let points = PointSet {
        loops: [[u128::MAX; 2]; 4],
    };
    Face {
        panel,
        zones: [u32::MAX; 8],
        firsts: [u32::MAX; 8],
        faults: FaultSet {
            missing: points,
            broken: u8::MAX,
            shorted: u8::MAX,
            supply: u8::MAX,
            silent: u8::MAX,
            links: u8::MAX,
            unconfirmed: u32::MAX,
        },
        outputs: u32::MAX,
        confirmed: u32::MAX,
        points_off: points,
        zones_off: u32::MAX,
        outputs_off: u32::MAX,
        test: u32::MAX,
        delays_off: true,
        buzzer: Buzzer::Fire,
        counter: 999_999,
    }
}

fn set_part(face: &mut Face, part: &str) -> Option<()> {
    let (word, value) = part.split_once(' ')?;
    match word {
        "zone" => set_zone(&mut face.zones, value),
        "first" => set_zone(&mut face.firsts, value),
        "output" => set_number(&mut face.outputs, value),
        "confirmed" => set_number(&mut face.confirmed, value),
        "point-off" => set_point(&mut face.points_off, value),
        "zone-off" => set_number(&mut face.zones_off, value),
        "output-off" => set_number(&mut face.outputs_off, value),
        "test" => set_number(&mut face.test, value),
        "delays" => {
            face.delays_off = value == "off";
            Some(())
        }
        "buzzer" => {
            face.buzzer = buzzer_of(value)?;
            Some(())
        }
        "counter" => {
            face.counter = value.parse().ok()?;
            Some(())
        }
        _ => set_fault(&mut face.faults, word, value),
    }
}

fn set_fault(faults: &mut FaultSet, word: &str, value: &str) -> Option<()> {
    match word {
        "missing" => set_point(&mut faults.missing, value),
        "broken" => set_few(&mut faults.broken, value),
        "shorted" => set_few(&mut faults.shorted, value),
        "supply" => set_few(&mut faults.supply, value),
        "silent" => set_few(&mut faults.silent, value),
        "link" => set_few(&mut faults.links, value),
        "unconfirmed" => set_number(&mut faults.unconfirmed, value),
        _ => None,
    }
}

fn buzzer_of(value: &str) -> Option<Buzzer> {
    match value {
        "off" => Some(Buzzer::Off),
        "fault" => Some(Buzzer::Fault),
        "fire" => Some(Buzzer::Fire),
        _ => None,
    }
}

// A number of 1 to 8.
fn set_few(mask: &mut u8, value: &str) -> Option<()> {
    *mask = with_bit_8(*mask, place_of(value, 8)?, true);
    Some(())
}

// A number of 1 to 32.
fn set_number(mask: &mut u32, value: &str) -> Option<()> {
    *mask = with_bit_32(*mask, place_of(value, 32)?, true);
    Some(())
}

// The place, from 0, of a number of 1 to the last one.
fn place_of(value: &str, last: u8) -> Option<u8>
    ensures { IfSome result (λ place. place < last) }
{
    let number: u8 = value.parse().ok()?;
    if number >= 1 && number <= last {
        Some(number - 1)
    } else {
        None
    }
}

// A panel and the number of a zone of it, as 2.3.
fn set_zone(masks: &mut [u32; 8], value: &str) -> Option<()> {
    let (panel, number) = value.split_once('.')?;
    let panel: usize = panel.parse().ok()?;
    set_number(masks.get_mut(panel.wrapping_sub(1))?, number)
}

// A loop and an address on it, as 1.192.
fn set_point(points: &mut PointSet, value: &str) -> Option<()> {
    let (line, address) = value.split_once('.')?;
    let line: u8 = line.parse().ok()?;
    let address: u8 = address.parse().ok()?;
    if line < 1 || line > 4 || address < 1 || address > 192 {
        return None;
    }
    points.set(line, address, true);
    Some(())
}
