ghost use Rattle.std.specs.Prelude.{◌≡◌, ◌≢◌, ◌≤◌, ◌+◌, [], ◌∷◌, ◌++◌, codes, decimal, length, true};
ghost use Rattle.std.specs.List.{AllByRecursion, flat_map};
ghost use Rattle.panel_edges.specs.Faults.{HasCause};
ghost use Rattle.face_text.specs.Changes.{change_of, group_text, groups_text, numbers_text};
ghost use Rattle.face_text.specs.Holding.{Puts};
ghost use Rattle.face_text.specs.NextNames.{AreNamedBehind};
ghost use Rattle.face_text.specs.Starts.{ArePassed};
ghost use Rattle.face_text.specs.Slots.{Thing, Delays, Sounding, Count, HasPlace, kind_of, last_of};
ghost use Rattle.face_text.specs.Slots.{page as page_of_panel, shows as is_shown, word_of};

use crate::change_lines::{buzzer_line, counter_line, delays_line, line_head, push_named};
use crate::face::Face;
use crate::group::Group;
use crate::held::Held;
use crate::masks::{is_same, last_number, masks_of, shows};
use crate::next_change::{changed, next_number};
use crate::next_names::next_name;
use crate::page::page;
use crate::sections::{has_same_faults, has_same_firsts, has_same_rest, has_same_zones};
use crate::starts::Starts;
use arrayvec::ArrayString;
use panel_edges::{Failed, Sink};
use site_types::Site;

/// What a panel of a site shows before and after something happened.
#[derive(Clone, Copy)]
pub struct FacePair<'a> {
    pub site: &'a Site,
    /// Where the things of each panel begin in the site's lists.
    pub starts: &'a Starts,
    pub before: &'a Face,
    pub after: &'a Face,
}

impl FacePair<'_> {
    /// Puts the lines of all groups behind what is held.
    pub fn push_groups<K: Sink>(&self, held: &mut Held, out: &mut K) -> Result<(), Failed>
        requires { ArePassed self.now.site.now self.now.starts.now }
        ensures text { Puts held.old held.new (K.written out.old) (K.written out.new)
            (groups_text self.now.site.now self.now.before.now self.now.after.now page_of_panel)
            result }
        ensures cause { HasCause (K.write_faults out.old) (K.write_faults out.new) result }
        ensures left { K.left out.new ≡ K.left out.old }
        ensures reads { K.read_faults out.new ≡ K.read_faults out.old }
    {
        let page = page();
        let (before, after) = (self.before, self.after);
        self.push_section(&page[..8], has_same_zones(before, after), held, out)?;
        self.push_section(&page[8..16], has_same_firsts(before, after), held, out)?;
        self.push_section(&page[16..26], has_same_faults(before, after), held, out)?;
        self.push_section(&page[26..], has_same_rest(before, after), held, out)
    }

    // The lines of some groups, of which nothing is looked at where they are known to have none.
    fn push_section<K: Sink>(
        &self,
        groups: &[Group],
        same: bool,
        held: &mut Held,
        out: &mut K,
    ) -> Result<(), Failed>
        requires places { AllByRecursion HasPlace groups.now }
        requires passed { ArePassed self.now.site.now self.now.starts.now }
        requires same { same ≡ true → groups_text self.now.site.now self.now.before.now
            self.now.after.now groups.now ≡ [] }
        ensures text { Puts held.old held.new (K.written out.old) (K.written out.new)
            (groups_text self.now.site.now self.now.before.now self.now.after.now groups.now)
            result }
        ensures cause { HasCause (K.write_faults out.old) (K.write_faults out.new) result }
        ensures left { K.left out.new ≡ K.left out.old }
        ensures reads { K.read_faults out.new ≡ K.read_faults out.old }
    {
        if same {
            return Ok(());
        }
        self.push_each(groups, held, out)
    }

    // The lines of some groups, one group behind the other.
    fn push_each<K: Sink>(
        &self,
        groups: &[Group],
        held: &mut Held,
        out: &mut K,
    ) -> Result<(), Failed>
        requires places { AllByRecursion HasPlace groups.now }
        requires passed { ArePassed self.now.site.now self.now.starts.now }
        ensures text { Puts held.old held.new (K.written out.old) (K.written out.new)
            (groups_text self.now.site.now self.now.before.now self.now.after.now groups.now)
            result }
        ensures cause { HasCause (K.write_faults out.old) (K.write_faults out.new) result }
        ensures left { K.left out.new ≡ K.left out.old }
        ensures reads { K.read_faults out.new ≡ K.read_faults out.old }
    {
        for group in groups.iter() {
            self.push_group(*group, held, out)?;
        }
        Ok(())
    }

    // The lines of a group, of which nothing is looked at where its mask is the same.
    fn push_group<K: Sink>(&self, group: Group, held: &mut Held, out: &mut K) -> Result<(), Failed>
        requires place { HasPlace group }
        requires passed { ArePassed self.now.site.now self.now.starts.now }
        ensures text { Puts held.old held.new (K.written out.old) (K.written out.new)
            (group_text self.now.site.now self.now.before.now self.now.after.now group) result }
        ensures cause { HasCause (K.write_faults out.old) (K.write_faults out.new) result }
        ensures left { K.left out.new ≡ K.left out.old }
        ensures reads { K.read_faults out.new ≡ K.read_faults out.old }
    {
        if is_same(self.before, self.after, group) {
            return Ok(());
        }
        self.push_numbers(group, held, out)
    }

    // The lines of a group, number by number.
    fn push_numbers<K: Sink>(
        &self,
        group: Group,
        held: &mut Held,
        out: &mut K,
    ) -> Result<(), Failed>
        requires place { HasPlace group }
        requires passed { ArePassed self.now.site.now self.now.starts.now }
        ensures text { Puts held.old held.new (K.written out.old) (K.written out.new)
            (numbers_text self.now.site.now self.now.before.now self.now.after.now group
            (last_of group)) result }
        ensures cause { HasCause (K.write_faults out.old) (K.write_faults out.new) result }
        ensures left { K.left out.new ≡ K.left out.old }
        ensures reads { K.read_faults out.new ≡ K.read_faults out.old }
    {
        let marks = changed(&masks_of(self.before, group), &masks_of(self.after, group));
        let head = line_head(self.after.panel, group);
        let last = last_number(group);
        let mut passed = self.starts.start(self.after.panel, group);
        let mut next = next_number(&marks, 1);
        while next <= last {
            self.push_number(group, &head, next, &mut passed, held, out)?;
            next = next_number(&marks, next + 1);
        }
        Ok(())
    }

    // The line of a thing that changed, with what is passed of the site's list of such things.
    fn push_number<K: Sink>(
        &self,
        group: Group,
        head: &ArrayString<32>,
        number: u8,
        passed: &mut usize,
        held: &mut Held,
        out: &mut K,
    ) -> Result<(), Failed>
        requires group { HasPlace group }
        requires number { (1 ≤ number) × (number ≤ last_of group) }
        requires head { head.now.bytes ≡ decimal self.now.after.now.panel ++ codes " "
            ++ word_of group ++ kind_of group }
        requires changed { is_shown self.now.before.now group number
            ≢ is_shown self.now.after.now group number }
        requires passed { AreNamedBehind passed.old self.now.site.now self.now.after.now.panel group
            number }
        ensures text { Puts held.old held.new (K.written out.old) (K.written out.new)
            (change_of self.now.site.now self.now.before.now self.now.after.now
            (Thing group number)) result }
        ensures passed { AreNamedBehind passed.new self.now.site.now self.now.after.now.panel group
            (number + 1) }
        ensures cause { HasCause (K.write_faults out.old) (K.write_faults out.new) result }
        ensures left { K.left out.new ≡ K.left out.old }
        ensures reads { K.read_faults out.new ≡ K.read_faults out.old }
    {
        match next_name(self.site, self.after.panel, group, number, passed) {
            Some(name) => {
                let on = shows(self.after, group, number);
                push_named(head, &name, on, held, out)
            }
            None => Ok(()),
        }
    }

    /// Puts the lines of delays, buzzer and counter behind what is held.
    pub fn push_rest<K: Sink>(&self, held: &mut Held, out: &mut K) -> Result<(), Failed>
        ensures text { Puts held.old held.new (K.written out.old) (K.written out.new)
            (flat_map (change_of self.now.site.now self.now.before.now self.now.after.now)
            (Delays ∷ Sounding ∷ Count ∷ [])) result }
        ensures cause { HasCause (K.write_faults out.old) (K.write_faults out.new) result }
        ensures left { K.left out.new ≡ K.left out.old }
        ensures reads { K.read_faults out.new ≡ K.read_faults out.old }
    {
        held.push(self.delays_change().as_str().as_bytes(), out)?;
        held.push(self.buzzer_change().as_str().as_bytes(), out)?;
        held.push(self.counter_change().as_str().as_bytes(), out)
    }

    fn delays_change(&self) -> ArrayString<64>
        ensures text { result.bytes
            ≡ change_of self.now.site.now self.now.before.now self.now.after.now Delays }
        ensures short { length result.bytes ≤ 64 }
    {
        if self.before.delays_off == self.after.delays_off {
            return ArrayString::new();
        }
        delays_line(self.after.panel, !self.after.delays_off)
    }

    fn buzzer_change(&self) -> ArrayString<64>
        ensures text { result.bytes
            ≡ change_of self.now.site.now self.now.before.now self.now.after.now Sounding }
        ensures short { length result.bytes ≤ 64 }
    {
        if self.before.buzzer == self.after.buzzer {
            return ArrayString::new();
        }
        buzzer_line(self.after.panel, self.after.buzzer)
    }

    fn counter_change(&self) -> ArrayString<64>
        ensures text { result.bytes
            ≡ change_of self.now.site.now self.now.before.now self.now.after.now Count }
        ensures short { length result.bytes ≤ 64 }
    {
        if self.before.counter == self.after.counter {
            return ArrayString::new();
        }
        counter_line(self.after.panel, self.after.counter)
    }
}
