ghost use Rattle.std.specs.Prelude.{◌≡◌, ◌≤◌, length};
ghost use Rattle.desk_faces.specs.FaceObjects.{buzzer_said, delays_said, face_front, panel_part, tick_part};

use crate::conditions::conditions_list;
use arrayvec::ArrayString;
use face_text::Face;
use itoa::Buffer;
use site_types::Buzzer;

// What stands in front of the first list of a face.
pub(crate) fn front(face: &Face) -> ArrayString<256>
    ensures text { result.bytes ≡ face_front face.now }
    ensures short { length result.bytes ≤ 256 }
{
    let mut digits = Buffer::new();
    let mut text = ArrayString::new();
    text.push_str("{\"buzzer\":\"");
    text.push_str(buzzer_word(face.buzzer));
    text.push_str("\",\"conditions\":");
    text.push_str(conditions_list(&face.conditions()).as_str());
    text.push_str(",\"counter\":");
    text.push_str(digits.format(face.counter));
    text.push_str(",\"delays\":\"");
    text.push_str(delays_word(face.delays_off));
    text.push_str("\",\"disabled\":");
    text
}

// What stands in front of the zones in test.
pub(crate) fn before_tests(panel: u8) -> ArrayString<64>
    ensures text { result.bytes ≡ panel_part panel }
    ensures short { length result.bytes ≤ 64 }
{
    let mut digits = Buffer::new();
    let mut text = ArrayString::new();
    text.push_str(",\"panel\":");
    text.push_str(digits.format(panel));
    text.push_str(",\"test\":");
    text
}

// What stands in front of the zones in alarm.
pub(crate) fn before_zones(tick: u64) -> ArrayString<64>
    ensures text { result.bytes ≡ tick_part tick }
    ensures short { length result.bytes ≤ 64 }
{
    let mut digits = Buffer::new();
    let mut text = ArrayString::new();
    text.push_str(",\"tick\":");
    text.push_str(digits.format(tick));
    text.push_str(",\"zones\":");
    text
}

fn buzzer_word(buzzer: Buzzer) -> &'static str
    ensures text { result.now ≡ buzzer_said buzzer }
    ensures short { length result.now ≤ 8 }
{
    match buzzer {
        Buzzer::Off => "off",
        Buzzer::Fault => "fault",
        Buzzer::Fire => "fire",
    }
}

fn delays_word(off: bool) -> &'static str
    ensures text { result.now ≡ delays_said off }
    ensures short { length result.now ≤ 8 }
{
    if off { "off" } else { "on" }
}
