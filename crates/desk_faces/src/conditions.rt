ghost use Rattle.std.specs.Prelude.{◌≡◌, ◌+◌, ◌≤◌, ◌++◌, length};
ghost use Rattle.desk_faces.specs.FaceObjects.{conditions_text, word_if};
ghost use Rattle.face_text.specs.Lists.{begun_after, listed};

use arrayvec::ArrayString;
use face_text::Conditions;

// The list of the conditions that hold.
pub(crate) fn conditions_list(conditions: &Conditions) -> ArrayString<64>
    ensures text { result.bytes ≡ conditions_text conditions.now }
    ensures short { length result.bytes ≤ 64 }
{
    let mut text = ArrayString::new();
    let mut begun = false;
    text.push_str("[");
    push_word(&mut text, &mut begun, conditions.fire, "fire");
    push_word(&mut text, &mut begun, conditions.fault, "fault");
    push_word(&mut text, &mut begun, conditions.disabled, "disabled");
    push_word(&mut text, &mut begun, conditions.test, "test");
    text.push_str("]");
    text
}

// Puts a word behind a list where its condition holds.
fn push_word(text: &mut ArrayString<64>, begun: &mut bool, holds: bool, word: &str)
    requires { length text.old.bytes + length word.now + 3 ≤ 64 }
    ensures text { text.new.bytes ≡ text.old.bytes ++ listed begun.old (word_if holds word.now) }
    ensures begun { begun.new ≡ begun_after begun.old (word_if holds word.now) }
    ensures short { length text.new.bytes ≤ length text.old.bytes + length word.now + 3 }
{
    if !holds {
        return;
    }
    if *begun {
        text.push_str(",");
    }
    text.push_str("\"");
    text.push_str(word);
    text.push_str("\"");
    *begun = true;
}
