ghost use Rattle.std.specs.Prelude.{◌≡◌, ◌≤◌, ◌+◌, ◌++◌, [], false, true, length, option_map, IfNone, IfSome, OnOk};
ghost use Rattle.panel_edges.specs.Faults.{HasCause};
ghost use Rattle.face_text.specs.Holding.{Puts};
ghost use Rattle.face_text.specs.Lists.{begun_after, comma, is_in as belongs, item_of, items_in};
ghost use Rattle.face_text.specs.Lists.{items_of, listed, named_item, quoted};
ghost use Rattle.face_text.specs.NextNames.{AreNamedBehind};
ghost use Rattle.face_text.specs.Slots.{HasPlace, kind_of, last_of};

use crate::face::Face;
use crate::face_list::FaceList;
use crate::group::Group;
use crate::held::Held;
use crate::masks::{is_blank, last_number, shows};
use crate::next_names::next_name;
use crate::page::page;
use crate::words::kind_word;
use arrayvec::ArrayString;
use panel_edges::{Failed, Sink};
use site_types::{Label, Site};

/// What a list of a face has: an item for each slot of its groups that is on, in the order of the page.
#[derive(Clone, Copy)]
pub struct FaceItems<'a> {
    pub site: &'a Site,
    pub face: &'a Face,
    pub list: FaceList,
}

impl FaceItems<'_> {
    /// Puts all items behind what is held, with commas between them.
    pub fn push_all<K: Sink>(&self, held: &mut Held, out: &mut K) -> Result<(), Failed>
        ensures text { Puts held.old held.new (K.written out.old) (K.written out.new)
            (listed false (items_of self.now.site.now self.now.face.now self.now.list)) result }
        ensures cause { HasCause (K.write_faults out.old) (K.write_faults out.new) result }
        ensures left { K.left out.new ≡ K.left out.old }
        ensures reads { K.read_faults out.new ≡ K.read_faults out.old }
    {
        let page = page();
        let mut begun = false;
        for group in page.iter() {
            self.push_group(*group, &mut begun, held, out)?;
        }
        Ok(())
    }

    // The items of a group that is of the list, of which nothing is looked at where its mask is empty.
    fn push_group<K: Sink>(
        &self,
        group: Group,
        begun: &mut bool,
        held: &mut Held,
        out: &mut K,
    ) -> Result<(), Failed>
        requires { HasPlace group }
        ensures text { Puts held.old held.new (K.written out.old) (K.written out.new)
            (listed begun.old (items_in self.now.site.now self.now.face.now self.now.list group))
            result }
        ensures begun { OnOk result (begun.new ≡ begun_after begun.old
            (items_in self.now.site.now self.now.face.now self.now.list group)) }
        ensures cause { HasCause (K.write_faults out.old) (K.write_faults out.new) result }
        ensures left { K.left out.new ≡ K.left out.old }
        ensures reads { K.read_faults out.new ≡ K.read_faults out.old }
    {
        if !is_in(self.list, group) {
            return Ok(());
        }
        if is_blank(self.face, group) {
            return Ok(());
        }
        let mut passed = 0;
        for place in 0..last_number(group) {
            self.push_item(group, place + 1, begun, &mut passed, held, out)?;
        }
        Ok(())
    }

    // The item of a thing, where it is shown.
    fn push_item<K: Sink>(
        &self,
        group: Group,
        number: u8,
        begun: &mut bool,
        passed: &mut usize,
        held: &mut Held,
        out: &mut K,
    ) -> Result<(), Failed>
        requires group { HasPlace group }
        requires number { (1 ≤ number) × (number ≤ last_of group) }
        requires passed { AreNamedBehind passed.old self.now.site.now self.now.face.now.panel group
            number }
        ensures text { Puts held.old held.new (K.written out.old) (K.written out.new)
            (listed begun.old (item_of self.now.site.now self.now.face.now group number)) result }
        ensures begun { begun.new
            ≡ begun_after begun.old (item_of self.now.site.now self.now.face.now group number) }
        ensures passed { AreNamedBehind passed.new self.now.site.now self.now.face.now.panel group
            (number + 1) }
        ensures cause { HasCause (K.write_faults out.old) (K.write_faults out.new) result }
        ensures left { K.left out.new ≡ K.left out.old }
        ensures reads { K.read_faults out.new ≡ K.read_faults out.old }
    {
        match self.item(group, number, *begun, passed) {
            Some(item) => {
                *begun = true;
                held.push(item.as_str().as_bytes(), out)
            }
            None => Ok(()),
        }
    }

    // The item of a thing that is shown, with a comma in front where the list has begun.
    fn item(
        &self,
        group: Group,
        number: u8,
        begun: bool,
        passed: &mut usize,
    ) -> Option<ArrayString<64>>
        requires group { HasPlace group }
        requires number { (1 ≤ number) × (number ≤ last_of group) }
        requires passed { AreNamedBehind passed.old self.now.site.now self.now.face.now.panel group
            number }
        ensures text { IfSome result (λ text. text.bytes
            ≡ listed begun (item_of self.now.site.now self.now.face.now group number)) }
        ensures begun { IfSome result (λ text. begun_after begun
            (item_of self.now.site.now self.now.face.now group number) ≡ true) }
        ensures short { IfSome result (λ text. length text.bytes ≤ 64) }
        ensures none { IfNone result
            (item_of self.now.site.now self.now.face.now group number ≡ []) }
        ensures passed { AreNamedBehind passed.new self.now.site.now self.now.face.now.panel group
            (number + 1) }
    {
        if !shows(self.face, group, number) {
            return None;
        }
        let name = next_name(self.site, self.face.panel, group, number, passed)?;
        Some(item_text(begun, group, &name))
    }
}

// An item, with a comma in front where the list has begun.
fn item_text(begun: bool, group: Group, name: &Label) -> ArrayString<64>
    ensures text { result.bytes ≡ comma begun ++ quoted (kind_of group ++ name.now.bytes) }
    ensures short { length result.bytes ≤ 64 }
{
    let mut text = ArrayString::new();
    if begun {
        text.push_str(",");
    }
    text.push_str("\"");
    text.push_str(kind_word(group));
    text.push_str(name.as_str());
    text.push_str("\"");
    text
}

// Whether the lines of a group belong to a list.
fn is_in(list: FaceList, group: Group) -> bool
    ensures { result ≡ belongs list group }
{
    match group {
        Group::Zones(_) => matches!(list, FaceList::Zones),
        Group::Firsts(_) => matches!(list, FaceList::Firsts),
        Group::Missing(_)
        | Group::Broken
        | Group::Shorted
        | Group::Supplies
        | Group::Silent
        | Group::Links
        | Group::Unconfirmed => matches!(list, FaceList::Faults),
        Group::Outputs => matches!(list, FaceList::Outputs),
        Group::Confirmed => false,
        Group::PointsOff(_) | Group::ZonesOff | Group::OutputsOff => matches!(
            list,
            FaceList::Disabled
        ),
        Group::Tests => matches!(list, FaceList::Tests),
    }
}
