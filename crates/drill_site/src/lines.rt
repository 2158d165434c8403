//! Single lines of the file.

ghost use Rattle.std.specs.Prelude.{◌≡◌, ◌+◌, ◌≤◌, ◌++◌, codes, decimal, length};
ghost use Rattle.drill_site.specs.Files.{loop_line as loop_text, marker_head as head_text, output_line as output_text};
ghost use Rattle.drill_site.specs.Files.{point_line as point_text, term_text as text_of_term, zone_line as zone_text};
ghost use Rattle.drill_site.specs.Files.{zone_number as number_of_zone};

use arrayvec::ArrayString;
use itoa::Buffer;

pub(crate) fn loop_line(panel: u8, line: u8) -> ArrayString<192>
    ensures { result.bytes ≡ loop_text panel line }
{
    let mut text = ArrayString::new();
    push_number(&mut text, "  { panel = ", panel);
    push_number(&mut text, ", loop = ", line);
    text.push_str(", last = 96, isolators = [12, 24, 36, 48, 60, 72, 84] },\n");
    text
}

pub(crate) fn zone_line(panel: u8, number: u8) -> ArrayString<192>
    ensures { result.bytes ≡ zone_text panel number }
{
    let mut text = ArrayString::new();
    push_number(&mut text, "  { name = \"z", panel);
    push_number(&mut text, "-", number);
    push_number(&mut text, "\", panel = ", panel);
    push_number(&mut text, ", number = ", number);
    text.push_str(" },\n");
    text
}

pub(crate) fn point_line(panel: u8, line: u8, address: u8) -> ArrayString<192>
    requires line { (1 ≤ line) × (line ≤ 4) }
    requires address { (1 ≤ address) × (address ≤ 96) }
    ensures { result.bytes ≡ point_text panel line address }
{
    let mut text = ArrayString::new();
    push_number(&mut text, "  { name = \"p", panel);
    push_number(&mut text, "-l", line);
    push_number(&mut text, "-a", address);
    push_number(&mut text, "\", panel = ", panel);
    push_number(&mut text, ", loop = ", line);
    push_number(&mut text, ", address = ", address);
    push_number(&mut text, ", zone = \"z", panel);
    push_number(&mut text, "-", zone_number(line, address));
    text.push_str("\" },\n");
    text
}

// The zone of an address.
fn zone_number(line: u8, address: u8) -> u8
    requires line { (1 ≤ line) × (line ≤ 4) }
    requires address { (1 ≤ address) × (address ≤ 96) }
    ensures { result ≡ number_of_zone line address }
{
    8 * (line - 1) + (address - 1) / 12 + 1
}

pub(crate) fn output_line(panel: u8) -> ArrayString<192>
    ensures { result.bytes ≡ output_text panel }
{
    let mut text = ArrayString::new();
    push_number(&mut text, "  { name = \"bells-", panel);
    push_number(&mut text, "\", panel = ", panel);
    push_number(
        &mut text,
        ", number = 1, kind = \"sounder\", when = \"any-",
        panel,
    );
    text.push_str("\" },\n");
    text
}

// A marker up to its terms.
pub(crate) fn marker_head(panel: u8) -> ArrayString<192>
    ensures { result.bytes ≡ head_text panel }
{
    let mut text = ArrayString::new();
    push_number(&mut text, "  { name = \"any-", panel);
    text.push_str("\", kind = \"any\", terms = [");
    text
}

pub(crate) fn term_text(panel: u8, number: u8) -> ArrayString<192>
    ensures { result.bytes ≡ text_of_term panel number }
{
    let mut text = ArrayString::new();
    push_number(&mut text, "\"zone:z", panel);
    push_number(&mut text, "-", number);
    text.push_str("\", ");
    text
}

// A word and a number behind it.
fn push_number(text: &mut ArrayString<192>, word: &str, number: u8)
    requires { length text.old.bytes + length word.now + 3 ≤ 192 }
    ensures text { text.new.bytes ≡ text.old.bytes ++ word.now ++ decimal number }
    ensures room { length text.new.bytes ≤ length text.old.bytes + length word.now + 3 }
{
    let mut digits = Buffer::new();
    text.push_str(word);
    text.push_str(digits.format(number));
}
