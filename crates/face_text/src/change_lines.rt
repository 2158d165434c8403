//! The lines by which one face differs from another.

ghost use Rattle.std.specs.Prelude.{◌≡◌, ◌≤◌, ◌++◌, codes, decimal, length, option_map, OnErr, OnOk, true};
ghost use Rattle.panel_edges.specs.Contents.{Grows, GrowsByFront};
ghost use Rattle.panel_edges.specs.Faults.{HasCause};
ghost use Rattle.face_text.specs.Changes.{changes_text};
ghost use Rattle.face_text.specs.Holding.{Puts};
ghost use Rattle.face_text.specs.Starts.{ArePassed};
ghost use Rattle.face_text.specs.Slots.{buzzer_line as line_of_buzzer, counter_line as line_of_counter};
ghost use Rattle.face_text.specs.Slots.{delays_line as line_of_delays, kind_of, line_of_thing, number_of_buzzer};
ghost use Rattle.face_text.specs.Slots.{number_of_truth, on_word as word_of_on, word_of};

use crate::face::Face;
use crate::face_pair::FacePair;
use crate::group::Group;
use crate::held::Held;
use crate::starts::Starts;
use crate::words::{buzzer_word, group_word, kind_word, on_word};
use arrayvec::ArrayString;
use itoa::Buffer;
use panel_edges::{Failed, Sink};
use site_types::{Buzzer, Label, Site};

/// Writes the lines of all that a panel shows otherwise than before, in the order of the page.
///
/// # Errors
///
/// At the first write that fails. Some front of the text is written then.
pub fn write_changes<K: Sink>(
    site: &Site,
    before: &Face,
    after: &Face,
    out: &mut K,
) -> Result<(), Failed>
    ensures ok { OnOk result
        (Grows (K.written out.old) (K.written out.new)
        (changes_text site.now before.now after.now)) }
    ensures err { OnErr result
        (GrowsByFront (K.written out.old) (K.written out.new)
        (changes_text site.now before.now after.now)) }
    ensures cause { HasCause (K.write_faults out.old) (K.write_faults out.new) result }
    ensures left { K.left out.new ≡ K.left out.old }
    ensures reads { K.read_faults out.new ≡ K.read_faults out.old }
{
    let mut held = Held::new();
    push_changes(site, &Starts::none(), before, after, &mut held, out)?;
    held.flush(out)
}

/// Puts the lines of all that a panel shows otherwise than before behind what is held.
///
/// # Errors
///
/// At the first write that fails. Some front of what was held and of the text is written then.
pub fn push_changes<K: Sink>(
    site: &Site,
    starts: &Starts,
    before: &Face,
    after: &Face,
    held: &mut Held,
    out: &mut K,
) -> Result<(), Failed>
    requires { ArePassed site.now starts.now }
    ensures text { Puts held.old held.new (K.written out.old) (K.written out.new)
        (changes_text site.now before.now after.now) result }
    ensures cause { HasCause (K.write_faults out.old) (K.write_faults out.new) result }
    ensures left { K.left out.new ≡ K.left out.old }
    ensures reads { K.read_faults out.new ≡ K.read_faults out.old }
{
    if is_same_face(before, after) {
        return Ok(());
    }
    let pair = FacePair {
        site,
        starts,
        before,
        after,
    };
    pair.push_groups(held, out)?;
    pair.push_rest(held, out)
}

fn is_same_face(before: &Face, after: &Face) -> bool
    ensures { result ≡ true → before.now ≡ after.now }
{
    before == after
}

/// How the lines of a group on the page of a panel begin.
pub fn line_head(panel: u8, group: Group) -> ArrayString<32>
    ensures text { result.bytes ≡ decimal panel ++ codes " " ++ word_of group ++ kind_of group }
    ensures short { length result.bytes ≤ 28 }
{
    let mut digits = Buffer::new();
    let mut head = ArrayString::new();
    head.push_str(digits.format(panel));
    head.push_str(" ");
    head.push_str(group_word(group));
    head.push_str(kind_word(group));
    head
}

/// The line of a thing that has this name, with its end; nothing where the site has none.
pub fn named_line(panel: u8, group: Group, name: &Option<Label>, on: bool) -> ArrayString<64>
    ensures text { result.bytes ≡ line_of_thing panel group (number_of_truth on)
        (option_map (λ label. label.bytes) name.now) }
    ensures short { length result.bytes ≤ 64 }
{
    let mut line = ArrayString::new();
    if let Some(name) = name {
        line.push_str(line_head(panel, group).as_str());
        line.push_str(name.as_str());
        line.push_str(on_word(on));
    }
    line
}

/// Puts a line that begins so and names a thing behind what is held.
///
/// # Errors
///
/// At the first write that fails. Some front of what was held is written then.
pub fn push_named<K: Sink>(
    head: &ArrayString<32>,
    name: &Label,
    on: bool,
    held: &mut Held,
    out: &mut K,
) -> Result<(), Failed>
    ensures text { Puts held.old held.new (K.written out.old) (K.written out.new)
        (head.now.bytes ++ name.now.bytes ++ word_of_on (number_of_truth on)) result }
    ensures cause { HasCause (K.write_faults out.old) (K.write_faults out.new) result }
    ensures left { K.left out.new ≡ K.left out.old }
    ensures reads { K.read_faults out.new ≡ K.read_faults out.old }
{
    held.make_room(64, out)?;
    held.append(head.as_str().as_bytes());
    held.append(name.as_str().as_bytes());
    if on {
        held.append(b" on\n");
    } else {
        held.append(b" off\n");
    }
    Ok(())
}

/// The line that tells whether the delays of a panel are on, with its end.
pub fn delays_line(panel: u8, on: bool) -> ArrayString<64>
    ensures text { result.bytes ≡ line_of_delays panel (number_of_truth on) }
    ensures short { length result.bytes ≤ 64 }
{
    let mut digits = Buffer::new();
    let mut line = ArrayString::new();
    line.push_str(digits.format(panel));
    line.push_str(" delays");
    line.push_str(on_word(on));
    line
}

/// The line that tells what the buzzer of a panel sounds, with its end.
pub fn buzzer_line(panel: u8, buzzer: Buzzer) -> ArrayString<64>
    ensures text { result.bytes ≡ line_of_buzzer panel (number_of_buzzer buzzer) }
    ensures short { length result.bytes ≤ 64 }
{
    let mut digits = Buffer::new();
    let mut line = ArrayString::new();
    line.push_str(digits.format(panel));
    line.push_str(" buzzer ");
    line.push_str(buzzer_word(buzzer));
    line
}

/// The line of the counter of a panel, with its end.
pub fn counter_line(panel: u8, counter: u32) -> ArrayString<64>
    ensures text { result.bytes ≡ line_of_counter panel counter }
    ensures short { length result.bytes ≤ 64 }
{
    let mut digits = Buffer::new();
    let mut line = ArrayString::new();
    line.push_str(digits.format(panel));
    line.push_str(" counter ");
    line.push_str(digits.format(counter));
    line.push_str("\n");
    line
}
