ghost use Rattle.std.specs.Prelude.{◌≡◌, ◌≤◌, length};
ghost use Rattle.desk_answers.specs.Objects.{level_text, object_text, pair_text, visit_text};

use crate::object::Object;
use arrayvec::ArrayString;
use itoa::Buffer;
use service_keepers::Visit;

// An object as text, with its line end.
pub(crate) fn text_of(object: &Object) -> ArrayString<96>
    ensures text { result.bytes ≡ object_text object.now }
    ensures short { length result.bytes ≤ 96 }
{
    match object {
        Object::Empty => plain("{}\n"),
        Object::RefusedLine { line, refusal } => {
            pair("{\"line\":", *line, ",\"refusal\":", *refusal as u64)
        }
        Object::OtherTick { expected, found } => {
            pair("{\"expected\":", *expected, ",\"found\":", *found)
        }
        Object::OtherVisit(visit) => other_visit(visit),
        Object::Denied { level } => denied(*level),
        Object::Tested { visit, tested } => {
            pair("{\"tested\":", *tested, ",\"visit\":", *visit as u64)
        }
        Object::Stopped => plain("{\"stopped\":true}\n"),
    }
}

fn plain(words: &str) -> ArrayString<96>
    requires { length words.now ≤ 96 }
    ensures text { result.bytes ≡ words.now }
    ensures short { length result.bytes ≤ 96 }
{
    let mut text = ArrayString::new();
    text.push_str(words);
    text
}

// An object of two numbers.
fn pair(words: &str, number: u64, other_words: &str, other: u64) -> ArrayString<96>
    requires words { length words.now ≤ 16 }
    requires other { length other_words.now ≤ 16 }
    ensures text { result.bytes ≡ pair_text words.now number other_words.now other }
    ensures short { length result.bytes ≤ 96 }
{
    let mut digits = Buffer::new();
    let mut text = ArrayString::new();
    text.push_str(words);
    text.push_str(digits.format(number));
    text.push_str(other_words);
    text.push_str(digits.format(other));
    text.push_str("}\n");
    text
}

fn other_visit(visit: &Visit) -> ArrayString<96>
    ensures text { result.bytes ≡ visit_text visit.now }
    ensures short { length result.bytes ≤ 96 }
{
    let mut digits = Buffer::new();
    let mut text = ArrayString::new();
    text.push_str("{\"day\":");
    text.push_str(digits.format(visit.day));
    text.push_str(",\"engineer\":\"");
    text.push_str(visit.engineer.as_str());
    text.push_str("\",\"visit\":");
    text.push_str(digits.format(visit.number));
    text.push_str("}\n");
    text
}

fn denied(level: u8) -> ArrayString<96>
    ensures text { result.bytes ≡ level_text level }
    ensures short { length result.bytes ≤ 96 }
{
    let mut digits = Buffer::new();
    let mut text = ArrayString::new();
    text.push_str("{\"has\":");
    text.push_str(digits.format(level));
    text.push_str(",\"needs\":3}\n");
    text
}
