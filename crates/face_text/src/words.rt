//! The fixed words of lines.

ghost use Rattle.std.specs.Prelude.{◌≡◌, ◌≤◌, length};
ghost use Rattle.face_text.specs.Slots.{buzzer_word as word_of_buzzer, kind_of, number_of_buzzer, number_of_truth};
ghost use Rattle.face_text.specs.Slots.{on_word as word_of_on, word_of};

use crate::group::Group;
use site_types::Buzzer;

/// The word behind the panel's number.
pub fn group_word(group: Group) -> &'static str
    ensures word { result.now ≡ word_of group }
    ensures short { length result.now ≤ 12 }
{
    match group {
        Group::Zones(_) => "zone ",
        Group::Firsts(_) => "first ",
        Group::Missing(_)
        | Group::Broken
        | Group::Shorted
        | Group::Supplies
        | Group::Silent
        | Group::Links
        | Group::Unconfirmed => "fault ",
        Group::Outputs => "output ",
        Group::Confirmed => "confirmed ",
        Group::PointsOff(_) | Group::ZonesOff | Group::OutputsOff => "disabled ",
        Group::Tests => "test ",
    }
}

/// The kind of a fault or of a disabled thing, with a space behind it, as it stands in front of the name; empty
/// for a group whose lines have none.
pub fn kind_word(group: Group) -> &'static str
    ensures word { result.now ≡ kind_of group }
    ensures short { length result.now ≤ 12 }
{
    match group {
        Group::Zones(_)
        | Group::Firsts(_)
        | Group::Supplies
        | Group::Outputs
        | Group::Confirmed
        | Group::Tests => "",
        Group::Missing(_) => "missing ",
        Group::Broken => "broken ",
        Group::Shorted => "shorted ",
        Group::Silent => "silent ",
        Group::Links => "link ",
        Group::Unconfirmed => "unconfirmed ",
        Group::PointsOff(_) => "point ",
        Group::ZonesOff => "zone ",
        Group::OutputsOff => "output ",
    }
}

pub fn on_word(on: bool) -> &'static str
    ensures word { result.now ≡ word_of_on (number_of_truth on) }
    ensures short { length result.now ≤ 12 }
{
    if on { " on\n" } else { " off\n" }
}

pub fn buzzer_word(buzzer: Buzzer) -> &'static str
    ensures word { result.now ≡ word_of_buzzer (number_of_buzzer buzzer) }
    ensures short { length result.now ≤ 12 }
{
    match buzzer {
        Buzzer::Off => "off\n",
        Buzzer::Fault => "fault\n",
        Buzzer::Fire => "fire\n",
    }
}
