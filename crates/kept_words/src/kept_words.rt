ghost use Rattle.std.specs.Prelude.{◌≡◌, ◌≤◌, []};
ghost use Rattle.panel_links.specs.Words.{left_of, right_of};

use panel_links::Frame;
use site_types::{Word, mask_from_8};
use tick_units::Tick;

/// The word that a panel keeps of each panel of its ring, itself too, and when a frame of each came last.
#[derive(Clone, Copy, Debug)]
pub struct KeptWords {
    panels: u8,
    panel: u8,
    /// By the panel whose word it is, panel 1 being the first.
    words: [Word; 8],
    /// The tick in which the last frame of each panel came, 0 before the first.
    came: [Tick; 8],
    ghost own: { (1 ≤ panel) × (panel ≤ panels) },
    ghost few: { panels ≤ 8 },
}

impl KeptWords {
    ghost use Rattle.kept_words.specs.Kept.{HearsFrame, HearsOwn, TakesNewer, TellsDown, TellsFrame, TellsOfLink};
    ghost use Rattle.kept_words.specs.Kept.{TellsOfSender, TellsSilent, TellsWord};
    ghost use Rattle.kept_words.specs.Stands.{IsOfRing, KeepsArrived, word_sent, word_stored};

    /// Of a panel that has heard nothing yet, in a ring of 1 to 8.
    pub fn new(panels: u8, panel: u8) -> KeptWords
        requires { (1 ≤ panel) × (panel ≤ panels) × (panels ≤ 8) }
        ensures { KeepsArrived panels panel [] result }
    {
        KeptWords {
            panels,
            panel,
            words: [Word::default(); 8],
            came: [Tick(0); 8],
        }
    }

    /// Keeps the panel's own word.
    pub fn keep_own(&mut self, own: Word)
        ensures { HearsOwn self.old own self.new }
    {
        self.words[self.panel as usize - 1] = own;
    }

    /// Takes a frame that came in a tick: each word of another panel that is newer than the one that is kept.
    pub fn receive(&mut self, now: Tick, frame: &Frame)
        requires group { frame.now.group ≤ 1 }
        requires sender { (1 ≤ frame.now.from) × (frame.now.from ≤ 8) }
        ensures { HearsFrame self.old now.0 frame.now self.new }
    {
        let first = 4 * frame.group + 1;
        self.take(first, frame.words[0]);
        self.take(first + 1, frame.words[1]);
        self.take(first + 2, frame.words[2]);
        self.take(first + 3, frame.words[3]);
        self.came[frame.from as usize - 1] = now;
    }

    /// The word that is kept of a panel.
    pub fn word(&self, of: u8) -> Word
        requires { IsOfRing self.now of }
        ensures value { result ≡ word_stored self.now of }
        ensures kept { TellsWord self.now of result }
    {
        self.words[of as usize - 1]
    }

    /// What the panel hands to its neighbours in a tick.
    pub fn frame(&self, now: Tick) -> Frame
        ensures { TellsFrame self.now now.0 result }
    {
        let group = if self.panels <= 4 || now.0 % 2 == 1 {
            0
        } else {
            1
        };
        let first = 4 * group + 1;
        Frame {
            from: self.panel,
            group,
            words: [
                self.sent(first),
                self.sent(first + 1),
                self.sent(first + 2),
                self.sent(first + 3),
            ],
        }
    }

    /// The links of the panel over which no frame came for more ticks than the limit, by bit `link - 1`.
    pub fn links_down(&self, now: Tick, limit: u64) -> u8
        ensures { TellsDown self.now now.0 limit result }
    {
        let mut down = [false; 8];
        for link in 1..9 {
            down[link as usize - 1] = self.is_down(link, now, limit);
        }
        mask_from_8(&down)
    }

    /// The panels of which nothing newer came for more ticks than the limit, by bit `panel - 1`.
    pub fn silent(&self, now: Tick, limit: u64) -> u8
        ensures { TellsSilent self.now now.0 limit result }
    {
        let mut silent = [false; 8];
        for of in 1..self.panels + 1 {
            let heard = self.word(of).stamp;
            silent[of as usize - 1] = now.0.saturating_sub(heard.0) > limit;
        }
        mask_from_8(&silent)
    }

    // Whether a link, 1 to 8, is one of the panel's and no frame came over it for more ticks than the limit.
    fn is_down(&self, link: u8, now: Tick, limit: u64) -> bool
        ensures { TellsOfLink self.now now.0 limit link result }
    {
        let left = self.left();
        let sender = if link == self.panel {
            self.right()
        } else {
            left
        };
        let own = self.panels > 1 && (link == self.panel || link == left);
        own && self.is_late(sender, now, limit)
    }

    fn left(&self) -> u8
        ensures value { result ≡ left_of self.now.panels self.now.panel }
        ensures within { IsOfRing self.now result }
    {
        if self.panel == 1 {
            self.panels
        } else {
            self.panel - 1
        }
    }

    fn right(&self) -> u8
        ensures value { result ≡ right_of self.now.panels self.now.panel }
        ensures within { IsOfRing self.now result }
    {
        if self.panel == self.panels {
            1
        } else {
            self.panel + 1
        }
    }

    // Whether no frame of a panel came for more ticks than the limit.
    fn is_late(&self, sender: u8, now: Tick, limit: u64) -> bool
        requires { IsOfRing self.now sender }
        ensures { TellsOfSender self.now now.0 limit sender result }
    {
        let came = self.came[sender as usize - 1];
        now.0.saturating_sub(came.0) > limit
    }

    // Keeps a word of another panel if it is newer.
    fn take(&mut self, of: u8, word: Word)
        requires { (1 ≤ of) × (of ≤ 8) }
        ensures words { TakesNewer self.old of word self.new }
        ensures panels { self.new.panels ≡ self.old.panels }
        ensures panel { self.new.panel ≡ self.old.panel }
        ensures came { self.new.came ≡ self.old.came }
    {
        if of != self.panel && self.words[of as usize - 1].stamp.0 < word.stamp.0 {
            self.words[of as usize - 1] = word;
        }
    }

    fn sent(&self, of: u8) -> Word
        requires { (1 ≤ of) × (of ≤ 8) }
        ensures { result ≡ word_sent self.now of }
    {
        if of <= self.panels {
            self.word(of)
        } else {
            Word::default()
        }
    }
}
