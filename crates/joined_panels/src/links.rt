ghost use Rattle.std.specs.Prelude.{◌≡◌, ℕ, ◌≤◌, ◌==◌, length, Bool, true, false, List, if◌then◌else◌};
ghost use Rattle.panel_rules.specs.Moments.{Moment, and_events};
ghost use Rattle.panel_rules.specs.States.{told_link};

use site_types::Event;

/// Which links of a ring are up.
#[derive(Clone, Copy)]
pub(crate) struct Links {
    panels: u8,
    /// By link, link 1 being the first.
    up: [bool; 8],
    ghost some: { 1 ≤ panels },
    ghost few: { panels ≤ 8 },
}

impl Links {
    ghost use Rattle.joined_panels.specs.Links.{HasLinks, has_way_up, is_link_up};

    /// All are up.
    pub(crate) fn new(panels: u8) -> Links
        requires { (1 ≤ panels) × (panels ≤ 8) }
        ensures panels { result.panels ≡ panels }
        ensures up { (link : ℕ) → 1 ≤ link → link ≤ 8 → is_link_up result link ≡ true }
    {
        Links {
            panels,
            up: [true; 8],
        }
    }

    /// Takes what a report says of a link.
    pub(crate) fn set(&mut self, link: u8, up: bool)
        ensures panels { self.new.panels ≡ self.old.panels }
        ensures up { (other : ℕ) → 1 ≤ other → other ≤ 8 → is_link_up self.new other
            ≡ (if link == other then up else is_link_up self.old other) }
    {
        if link >= 1 && link <= 8 {
            self.up[link as usize - 1] = up;
        }
    }

    /// Takes what an event says of a link, and tells whether it speaks of one.
    pub(crate) fn read(&mut self, event: &Event) -> bool
        ensures panels { self.new.panels ≡ self.old.panels }
        ensures up { (link : ℕ) → 1 ≤ link → link ≤ 8
            → is_link_up self.new link ≡ told_link link event.now (is_link_up self.old link) }
        ensures silent { result ≡ false → self.new ≡ self.old }
    {
        match *event {
            Event::Link { link, up } => {
                self.set(link, up);
                true
            }
            Event::Point { .. } => false,
            Event::Cable { .. } => false,
            Event::Supply { .. } => false,
            Event::Confirmed { .. } => false,
            Event::Op { .. } => false,
        }
    }

    /// Takes events one after another, and tells whether one speaks of a link.
    pub(crate) fn take_events(&mut self, events: &[Event]) -> bool
        ensures panels { self.new.panels ≡ self.old.panels }
        ensures up { (moments : List Moment) → HasLinks moments self.old
            → HasLinks (and_events events.now moments) self.new }
        ensures silent { result ≡ false → self.new ≡ self.old }
    {
        let mut told = false;
        for event in events {
            if self.read(event) {
                told = true;
            }
        }
        told
    }

    /// Whether each link on the way up from one panel to another is up.
    pub(crate) fn has_way_up(&self, from: u8, to: u8) -> bool
        requires { (1 ≤ from) × (from ≤ 8) × (to ≤ 8) }
        ensures { result ≡ has_way_up (is_link_up self.now) self.now.panels from to }
    {
        let between = (to + self.panels).saturating_sub(from) % self.panels;
        for step in 0..between {
            let link = (from + step - 1) % self.panels;
            if !self.up[link as usize] {
                return false;
            }
        }
        true
    }
}
