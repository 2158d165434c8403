ghost use Rattle.std.specs.Prelude.{◌≡◌, ◌≢◌, ◌↔◌, ◌+◌, ◌≤◌, ◌<◌, ◌==◌, ◌&&◌, [], ◌∷◌, List, ℕ, length, nat_le};
ghost use Rattle.std.specs.Prelude.{false, true, if◌then◌else◌, slice_index_or};
ghost use Rattle.site_types.specs.Bits.{mask_of};
ghost use Rattle.panel_links.specs.Words.{Call, Linked, Took, IsHeard, IsNewest, OwnStampsRise};
ghost use Rattle.site_types.specs.Words.{empty_word};
ghost use Rattle.panel_links.specs.Words.{group_of, left_of, right_of};
ghost use Rattle.panel_links.specs.Kept.{HasZonesOf, NoneOlder, kept_word, newest};
ghost use Rattle.panel_links.specs.Frames.{after_frame, frame_of};
ghost use Rattle.panel_links.specs.Told.{HaveEight, NoneBeyond, TellTable};

use crate::frame::Frame;
use crate::told::newer;
use marker_table::Facts;
use site_types::{Word, has_bit_8, with_bit_8};
use tick_units::Tick;

/// What each panel of a ring keeps of each other one, and which links are up.
#[derive(Drop)]
pub struct Ring {
    panels: u8,
    /// The links that are down, by bit `link - 1`.
    down: u8,
    /// By the panel that keeps and the panel whose word it is, panel 1 being the first.
    pub(crate) words: [[Word; 8]; 8],
    /// By panel, a tick that no word which it keeps is older than.
    pub(crate) oldest: [u64; 8],
    /// By panel, what the words that it keeps tell.
    pub(crate) facts: [Facts; 8],
    ghost some: { 1 ≤ panels },
    ghost few: { panels ≤ 8 },
    ghost none_older: { NoneOlder panels words oldest },
    ghost none_beyond: { NoneBeyond panels words },
    ghost told: { TellTable panels words facts },
    ghost eight: { HaveEight panels facts },
    ghost wide: { (k : ℕ) → k < 8 → length (slice_index_or words k []) ≡ 8 },
}

impl Ring {
    ghost use Rattle.panel_links.specs.Changes.{KeepsNewest, KeepsZones, TakesNewest, TakesNewestOf};
    ghost use Rattle.panel_links.specs.Stands.{HasPanel, StandsFor, TellKept, is_down_at, is_silent, is_up_in, kept_in};
    ghost use Rattle.panel_links.specs.Stands.{newest_of};

    /// A ring of 1 to 8 panels. All links are up, and nothing was heard.
    pub fn new(panels: u8) -> Ring
        requires { (1 ≤ panels) × (panels ≤ 8) }
        ensures stands { StandsFor panels [] result }
        ensures panels { result.panels ≡ panels }
    {
        let nothing = Facts {
            zones: [0; 8],
            manual: [0; 8],
            faults: 0,
        };
        Ring {
            panels,
            down: 0,
            words: [[Word::default(); 8]; 8],
            oldest: [0; 8],
            facts: [nothing; 8],
        }
    }

    /// Takes a report on a link, 1 to the panels of the ring.
    pub fn set_link(&mut self, link: u8, up: bool)
        requires { (1 ≤ link) × (link ≤ 8) }
        ensures stands { (panels : ℕ) (calls : List Call) → StandsFor panels calls self.old
            → StandsFor panels (Linked link up ∷ calls) self.new }
        ensures panels { self.new.panels ≡ self.old.panels }
    {
        self.down = with_bit_8(self.down, link - 1, !up);
    }

    /// Makes the turn of a panel in a tick: it keeps its own word, then takes what is newer from its neighbours.
    pub fn turn(&mut self, now: Tick, panel: u8, own: Word)
        requires { HasPanel self.old panel }
        ensures stands { (panels : ℕ) (calls : List Call) → StandsFor panels calls self.old
            → StandsFor panels (Took now.0 panel own ∷ calls) self.new }
        ensures panels { self.new.panels ≡ self.old.panels }
    {
        self.telling_turn(now, panel, own);
    }

    /// Makes the turn of a panel, and tells whether a word that it keeps of another one has other zones in alarm or
    /// in first state than before.
    pub fn telling_turn(&mut self, now: Tick, panel: u8, own: Word) -> bool
        requires { HasPanel self.old panel }
        ensures stands { (panels : ℕ) (calls : List Call) → StandsFor panels calls self.old
            → StandsFor panels (Took now.0 panel own ∷ calls) self.new }
        ensures panels { self.new.panels ≡ self.old.panels }
        ensures zones { result ≡ false → KeepsZones self.old panel self.new }
        ensures same { KeepsZones self.old panel self.new → result ≡ false }
    {
        self.keep(panel, panel, own);
        self.renew_oldest(panel, now);
        if self.panels == 1 {
            return false;
        }
        let left = self.left_of(panel);
        let right = self.right_of(panel);
        let before = self.over(left, left, panel);
        let after = self.over(panel, right, panel);
        self.take_newest(panel, before, after, now)
    }

    /// The stamp of the word that a panel keeps of another.
    pub fn heard(&self, at: u8, of: u8) -> Tick
        requires at { HasPanel self.now at }
        requires from { HasPanel self.now of }
        ensures kept { (panels : ℕ) (calls : List Call) → StandsFor panels calls self.now
            → result ≡ (kept_word panels of at calls).stamp }
        ensures newest { (panels : ℕ) (calls : List Call) → StandsFor panels calls self.now
            → OwnStampsRise calls → IsHeard panels of at calls result.0 }
    {
        self.word(at, of).stamp
    }

    /// The word that a panel keeps of another.
    pub fn word(&self, at: u8, of: u8) -> Word
        requires at { HasPanel self.now at }
        requires from { HasPanel self.now of }
        ensures value { result ≡ kept_in self.now at of }
        ensures kept { (panels : ℕ) (calls : List Call) → StandsFor panels calls self.now
            → result ≡ kept_word panels of at calls }
        ensures newest { (panels : ℕ) (calls : List Call) → StandsFor panels calls self.now
            → OwnStampsRise calls → IsNewest panels of at calls result }
    {
        self.kept(at, of)
    }

    /// What the words that a panel keeps tell, as facts that markers are solved over.
    pub fn facts(&self, panel: u8) -> &Facts
        requires { HasPanel self.now panel }
        ensures { TellKept self.now panel result.now }
    {
        &self.facts[panel as usize - 1]
    }

    /// The links of a panel that are down, by bit `link - 1`.
    pub fn links_down(&self, panel: u8) -> u8
        requires { HasPanel self.now panel }
        ensures { (panels : ℕ) (calls : List Call) → StandsFor panels calls self.now
            → result ≡ mask_of 8 (λ k. is_down_at panels panel calls (k + 1)) }
    {
        if self.down == 0 {
            return 0;
        }
        if self.panels == 1 {
            return 0;
        }
        let left = self.left_of(panel);
        let own = with_bit_8(0, panel - 1, !self.is_up(panel));
        with_bit_8(own, left - 1, !self.is_up(left))
    }

    /// The panels of which a panel has heard nothing newer for more ticks than the limit, by bit `panel - 1`.
    pub fn silent(&self, panel: u8, now: Tick, limit: u64) -> u8
        requires { HasPanel self.now panel }
        ensures { (panels : ℕ) (calls : List Call) → StandsFor panels calls self.now
            → result ≡ mask_of 8 (λ k. is_silent panels panel calls now.0 limit (k + 1)) }
    {
        if self.oldest[panel as usize - 1] >= now.0.saturating_sub(limit) {
            return 0;
        }
        self.silent_by_word(panel, now, limit)
    }

    // The panels of which a panel has heard nothing newer for more ticks than the limit, word by word.
    #[inline(never)]
    fn silent_by_word(&self, panel: u8, now: Tick, limit: u64) -> u8
        requires { HasPanel self.now panel }
        ensures { (panels : ℕ) (calls : List Call) → StandsFor panels calls self.now
            → result ≡ mask_of 8 (λ k. is_silent panels panel calls now.0 limit (k + 1)) }
    {
        // The mask grows at its lowest bit, so the last panel is looked at first.
        let mut silent = 0;
        for of in (1..self.panels + 1).rev() {
            let heard = self.kept(panel, of).stamp;
            silent = 2 * silent + (now.0.saturating_sub(heard.0) > limit) as u8;
        }
        silent
    }

    // Looks now and then how old the oldest word is that a panel keeps, since words become newer.
    fn renew_oldest(&mut self, panel: u8, now: Tick)
        requires { HasPanel self.old panel }
        ensures words { (a o : ℕ) → kept_in self.new a o ≡ kept_in self.old a o }
        ensures panels { self.new.panels ≡ self.old.panels }
        ensures links { self.new.down ≡ self.old.down }
    {
        if now.0 % 16 == 0 {
            self.find_oldest(panel);
        }
    }

    #[inline(never)]
    fn find_oldest(&mut self, panel: u8)
        requires { HasPanel self.old panel }
        ensures words { (a o : ℕ) → kept_in self.new a o ≡ kept_in self.old a o }
        ensures panels { self.new.panels ≡ self.old.panels }
        ensures links { self.new.down ≡ self.old.down }
    {
        let mut oldest = self.kept(panel, 1).stamp.0;
        for of in 2..self.panels + 1 {
            oldest = oldest.min(self.kept(panel, of).stamp.0);
        }
        self.oldest[panel as usize - 1] = oldest;
    }

    /// What a panel sends over its links in a tick.
    pub fn frame(&self, from: u8, now: Tick) -> Frame
        requires { HasPanel self.now from }
        ensures { result ≡ frame_of self.now.panels (kept_in self.now from) from now.0 }
    {
        let group = self.group(now);
        let first = 4 * group + 1;
        Frame {
            from,
            group,
            words: [
                self.sent(from, first),
                self.sent(from, first + 1),
                self.sent(from, first + 2),
                self.sent(from, first + 3),
            ],
        }
    }

    /// Makes of a frame what its receiver makes of it: it keeps each word that is newer than the one it keeps.
    pub fn receive(&mut self, at: u8, frame: &Frame)
        requires at { HasPanel self.old at }
        requires group { frame.now.group ≤ 1 }
        ensures words { (a o : ℕ) → HasPanel self.old a → HasPanel self.old o
            → kept_in self.new a o ≡ after_frame at frame.now.group frame.now.words a o
            (kept_in self.old a o) }
        ensures panels { self.new.panels ≡ self.old.panels }
        ensures links { self.new.down ≡ self.old.down }
    {
        let first = 4 * frame.group + 1;
        self.take(at, first, frame.words[0]);
        self.take(at, first + 1, frame.words[1]);
        self.take(at, first + 2, frame.words[2]);
        self.take(at, first + 3, frame.words[3]);
    }

    fn left_of(&self, panel: u8) -> u8
        requires { HasPanel self.now panel }
        ensures { result ≡ left_of self.now.panels panel }
    {
        if panel == 1 { self.panels } else { panel - 1 }
    }

    fn right_of(&self, panel: u8) -> u8
        requires { HasPanel self.now panel }
        ensures { result ≡ right_of self.now.panels panel }
    {
        if panel == self.panels { 1 } else { panel + 1 }
    }

    // The panel over a link; where it is down, the panel itself, which keeps nothing newer than it keeps.
    fn over(&self, link: u8, neighbour: u8, panel: u8) -> u8
        requires { (1 ≤ link) × (link ≤ 8) }
        ensures { result ≡ (if is_up_in self.now link then neighbour else panel) }
    {
        if self.is_up(link) { neighbour } else { panel }
    }

    fn is_up(&self, link: u8) -> bool
        requires { (1 ≤ link) × (link ≤ 8) }
        ensures { result ≡ is_up_in self.now link }
    {
        !has_bit_8(self.down, link - 1)
    }

    // Takes the newest of what three panels keep of those of the tick's group, and tells whether others' zones changed.
    #[inline(never)]
    fn take_newest(&mut self, at: u8, left: u8, right: u8, now: Tick) -> bool
        requires at { HasPanel self.old at }
        requires left { HasPanel self.old left }
        requires right { HasPanel self.old right }
        ensures words { TakesNewest self.old at left right now.0 self.new }
        ensures zones { result ≡ false ↔ KeepsZones self.old at self.new }
        ensures panels { self.new.panels ≡ self.old.panels }
        ensures links { self.new.down ≡ self.old.down }
    {
        let first = 4 * self.group(now) + 1;
        let mut differ = false;
        for of in first..first + 4 {
            if self.take_newer(at, left, right, of) {
                differ |= self.is_another(at, of);
            }
        }
        differ
    }

    // Whether a number from 1 is that of another panel of the ring than one.
    fn is_another(&self, at: u8, of: u8) -> bool
        ensures { result ≡ true ↔ (of ≤ self.now.panels) × (of ≢ at) }
    {
        of != at && of <= self.panels
    }

    // Takes the newest of what three panels keep of one, and tells whether its zones are others.
    fn take_newer(&mut self, at: u8, left: u8, right: u8, of: u8) -> bool
        requires at { HasPanel self.old at }
        requires left { HasPanel self.old left }
        requires right { HasPanel self.old right }
        requires from { (1 ≤ of) × (of ≤ 8) }
        ensures words { TakesNewestOf self.old at left right of self.new }
        ensures zones { result ≡ false
            ↔ HasZonesOf (newest_of self.old at left right of) (kept_in self.old at of) }
        ensures panels { self.new.panels ≡ self.old.panels }
        ensures links { self.new.down ≡ self.old.down }
    {
        let by_left = self.kept(left, of).stamp.0;
        let by_right = self.kept(right, of).stamp.0;
        if by_left < by_right {
            self.take_from(at, right, of)
        } else {
            self.take_from(at, left, of)
        }
    }

    // The group of panels whose words a tick carries.
    fn group(&self, now: Tick) -> u8
        ensures { result ≡ group_of self.now.panels now.0 }
    {
        if self.panels <= 4 || now.0 % 2 == 1 {
            0
        } else {
            1
        }
    }

    // Keeps a word of a panel if it is newer.
    fn take(&mut self, at: u8, of: u8, word: Word)
        requires at { HasPanel self.old at }
        requires from { 1 ≤ of }
        ensures words { KeepsNewest self.old at of word self.new }
        ensures panels { self.new.panels ≡ self.old.panels }
        ensures links { self.new.down ≡ self.old.down }
    {
        if of <= self.panels {
            let kept = self.kept(at, of);
            self.keep(at, of, newer(kept, word));
        }
    }

    fn sent(&self, from: u8, of: u8) -> Word
        requires from { HasPanel self.now from }
        requires of { 1 ≤ of }
        ensures { result
            ≡ (if nat_le of self.now.panels then kept_in self.now from of else empty_word) }
    {
        if of <= self.panels {
            self.word(from, of)
        } else {
            Word::default()
        }
    }
}
