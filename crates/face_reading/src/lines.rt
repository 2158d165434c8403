//! The lines of a text.

ghost use Rattle.std.specs.Prelude.{◌≡◌, IfNone, IfSome};
ghost use Rattle.face_reading.specs.EntryLines.{IsParted};
ghost use Rattle.face_reading.specs.Reading.{line_ends};

/// The first line of a text without its end, and what is behind it; nothing where no line is ended.
pub fn split_line(text: &[u8]) -> Option<(&[u8], &[u8])>
    ensures parted { IfSome result (λ parts. IsParted text.now parts.0.now parts.1.now) }
    ensures none { IfNone result (line_ends text.now ≡ 0) }
{
    for (place, byte) in text.iter().enumerate() {
        if *byte == b'\n' {
            return Some((&text[..place], &text[place + 1..]));
        }
    }
    None
}
