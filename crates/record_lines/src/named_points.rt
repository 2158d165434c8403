//! Points by their names, looked for by words of eight bytes, in which most names of a site differ.

ghost use Rattle.std.specs.Prelude.{◌≡◌, Some, IfSome};
ghost use Rattle.record_lines.specs.Events.{point_of};
ghost use Rattle.site_types.specs.Valid.{IsValid};

use site_types::{Named, Site, Thing};

/// The point with a name. What the search comes upon is looked at, so that nothing need be proved of it; where it
/// comes upon something else there is none.
pub fn point_named(site: &Site, name: &[u8]) -> Option<u16>
    requires { IsValid site.now }
    ensures { IfSome result (λ point. Some point ≡ point_of site.now name.now) }
{
    let names = site.names.as_slice();
    let named = names.get(place_of(names, name))?;
    if let Thing::Point(point) = named.thing {
        if named.name.as_str().as_bytes() == name {
            return Some(point);
        }
    }
    None
}

// Where a name stands among names that rise, if it does.
fn place_of(names: &[Named], name: &[u8]) -> usize {
    let mut before = 0;
    let mut rest = names;
    while !rest.is_empty() {
        let half = rest.len() / 2;
        if stands_before(rest[half].name.as_str().as_bytes(), name) {
            before += half + 1;
            rest = &rest[half + 1..];
        } else {
            rest = &rest[..half];
        }
    }
    before
}

// Whether a name stands before another one in the order of bytes.
fn stands_before(name: &[u8], other: &[u8]) -> bool {
    let Some((word, behind)) = name.split_first_chunk::<8>() else {
        return bytes_stand_before(name, other);
    };
    let Some((other_word, other_behind)) = other.split_first_chunk::<8>() else {
        return bytes_stand_before(name, other);
    };
    let (word, other_word) = (u64::from_be_bytes(*word), u64::from_be_bytes(*other_word));
    if word == other_word {
        bytes_stand_before(behind, other_behind)
    } else {
        word < other_word
    }
}

// Whether a text stands before another one in the order of bytes, looked at byte by byte.
fn bytes_stand_before(text: &[u8], other: &[u8]) -> bool {
    for (byte, other_byte) in text.iter().zip(other) {
        if byte != other_byte {
            return byte < other_byte;
        }
    }
    text.len() < other.len()
}
