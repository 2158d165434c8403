//! How a word of a panel takes the place of the one before, and the facts follow it.

ghost use Rattle.std.specs.Prelude.{◌≡◌, ◌↔◌, ◌-◌, ◌≤◌, false, slice_index};
ghost use Rattle.panel_links.specs.Kept.{HasZonesOf, newest};

use crate::ring::Ring;
use crate::told::{has_other_zones, keep_same, tell, tells_same};
use site_types::Word;
use tick_units::Tick;

impl Ring {
    ghost use Rattle.panel_links.specs.Changes.{Keeps, KeepsNewest, Restamps};
    ghost use Rattle.panel_links.specs.Stands.{HasPanel, kept_in};

    // Takes what another panel keeps of one if it is newer, and tells whether its zones are others.
    pub(crate) fn take_from(&mut self, at: u8, source: u8, of: u8) -> bool
        requires at { HasPanel self.old at }
        requires source { HasPanel self.old source }
        requires from { (1 ≤ of) × (of ≤ 8) }
        ensures words { KeepsNewest self.old at of (kept_in self.old source of) self.new }
        ensures zones { result ≡ false
            ↔ HasZonesOf (newest (kept_in self.old at of) (kept_in self.old source of))
            (kept_in self.old at of) }
        ensures panels { self.new.panels ≡ self.old.panels }
        ensures links { self.new.down ≡ self.old.down }
    {
        if self.kept(at, of).stamp.0 >= self.kept(source, of).stamp.0 {
            return false;
        }
        if keep_same(&self.words, source, at, of) {
            let stamp = self.kept(source, of).stamp;
            self.restamp(at, of, stamp);
            return false;
        }
        let word = self.kept(source, of);
        self.replace_telling(at, of, word)
    }

    pub(crate) fn kept(&self, at: u8, of: u8) -> Word
        requires at { HasPanel self.now at }
        requires from { (1 ≤ of) × (of ≤ 8) }
        ensures { result ≡ kept_in self.now at of }
    {
        self.words[at as usize - 1][of as usize - 1]
    }

    pub(crate) fn keep(&mut self, at: u8, of: u8, word: Word)
        requires at { HasPanel self.old at }
        requires from { HasPanel self.old of }
        ensures words { Keeps self.old at of word self.new }
        ensures panels { self.new.panels ≡ self.old.panels }
        ensures links { self.new.down ≡ self.old.down }
    {
        let place = at as usize - 1;
        self.oldest[place] = self.oldest[place].min(word.stamp.0);
        if tells_same(&word, &self.words[place][of as usize - 1]) {
            self.restamp(at, of, word.stamp);
        } else {
            self.replace_telling(at, of, word);
        }
    }

    // Keeps the word of a panel with another stamp, which is nearly always all that is new.
    fn restamp(&mut self, at: u8, of: u8, stamp: Tick)
        requires at { HasPanel self.old at }
        requires from { HasPanel self.old of }
        requires late { slice_index self.old.oldest (at - 1) ≤ stamp.0 }
        ensures words { Restamps self.old at of stamp self.new }
        ensures panels { self.new.panels ≡ self.old.panels }
        ensures links { self.new.down ≡ self.old.down }
    {
        self.words[at as usize - 1][of as usize - 1].stamp = stamp;
    }

    // Keeps a word that may tell other things than the one before, and mends the facts by it.
    #[inline(never)]
    fn replace_telling(&mut self, at: u8, of: u8, word: Word) -> bool
        requires at { HasPanel self.old at }
        requires from { HasPanel self.old of }
        requires late { slice_index self.old.oldest (at - 1) ≤ word.stamp.0 }
        ensures words { Keeps self.old at of word self.new }
        ensures zones { result ≡ false ↔ HasZonesOf word (kept_in self.old at of) }
        ensures panels { self.new.panels ≡ self.old.panels }
        ensures links { self.new.down ≡ self.old.down }
    {
        let differ = has_other_zones(&word, &self.kept(at, of));
        let place = at as usize - 1;
        self.words[place][of as usize - 1] = word;
        tell(&mut self.facts[place], of, &word);
        differ
    }
}
