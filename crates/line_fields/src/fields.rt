//! The fields of a line, which single spaces part.

ghost use Rattle.std.specs.Prelude.{◌≡◌, ◌==◌, ◌≤◌, cond, length};
ghost use Rattle.line_fields.specs.Fields.{field_count as fields_in, space_count as spaces_in};
ghost use Rattle.site_types.specs.Fields.{after_space as behind_space, before_space as front, field as field_at};

/// The field at a place, counted from 0; empty where there is none.
pub fn field(text: &[u8], place: usize) -> &[u8]
    ensures { result.now ≡ field_at place text.now }
{
    let mut rest = text;
    for _passed in 0..place {
        rest = after_space(rest);
    }
    before_space(rest)
}

/// How many fields there are: one more than spaces.
pub fn field_count(text: &[u8]) -> usize
    ensures { result ≡ fields_in text.now }
{
    space_count(text) + 1
}

/// How many spaces there are.
pub fn space_count(text: &[u8]) -> usize
    ensures count { result ≡ spaces_in text.now }
    ensures few { result ≤ length text.now }
{
    let mut count = 0;
    let mut rest = text;
    // By eights, which are counted without a branch for each byte.
    while let [
        first,
        second,
        third,
        fourth,
        fifth,
        sixth,
        seventh,
        eighth,
        behind @ ..,
    ] = rest
    {
        count = count
            + one_if_space(*first)
            + one_if_space(*second)
            + one_if_space(*third)
            + one_if_space(*fourth)
            + one_if_space(*fifth)
            + one_if_space(*sixth)
            + one_if_space(*seventh)
            + one_if_space(*eighth);
        rest = behind;
    }
    count + single_spaces(rest)
}

// How many spaces there are, byte by byte.
fn single_spaces(text: &[u8]) -> usize
    ensures count { result ≡ spaces_in text.now }
    ensures few { result ≤ length text.now }
{
    text.iter().filter(|byte| **byte == b' ').count()
}

fn one_if_space(byte: u8) -> usize
    ensures count { result ≡ cond (byte == 32) 1 0 }
    ensures few { result ≤ 1 }
{
    (byte == b' ') as usize
}

/// The first field.
pub fn before_space(text: &[u8]) -> &[u8]
    ensures { result.now ≡ front text.now }
{
    &text[..place_of_space(text)]
}

/// What follows the first space; empty where there is none.
pub fn after_space(text: &[u8]) -> &[u8]
    ensures { result.now ≡ behind_space text.now }
{
    behind(text, place_of_space(text))
}

/// The first field, and what follows the first space.
pub fn split_field(text: &[u8]) -> (&[u8], &[u8])
    ensures first { result.0.now ≡ front text.now }
    ensures rest { result.1.now ≡ behind_space text.now }
{
    let place = place_of_space(text);
    (&text[..place], behind(text, place))
}

// What follows the place of the first space.
fn behind(text: &[u8], place: usize) -> &[u8]
    requires place { place ≡ length (front text.now) }
    requires within { place ≤ length text.now }
    ensures { result.now ≡ behind_space text.now }
{
    if place < text.len() {
        &text[place + 1..]
    } else {
        &text[place..]
    }
}

// The place of the first space, or the length where there is none.
fn place_of_space(text: &[u8]) -> usize
    ensures place { result ≡ length (front text.now) }
    ensures within { result ≤ length text.now }
{
    for (place, byte) in text.iter().enumerate() {
        if *byte == b' ' {
            return place;
        }
    }
    text.len()
}
