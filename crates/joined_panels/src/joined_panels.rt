ghost use Rattle.std.specs.Prelude.{◌≡◌, ◌+◌, ◌≤◌, ◌↔◌, [], ◌∷◌, List, length, map, IsTrue};
ghost use Rattle.site_types.specs.declared.site.Site.{Site as SiteOf};
ghost use Rattle.site_types.specs.Valid.{IsValid};
ghost use Rattle.record_lines.specs.Events.{event_view};
ghost use Rattle.panel_rules.specs.Moments.{TickBlock, moments, tick_of};
ghost use Rattle.panel_rules.specs.Ring.{AreJoined};
ghost use Rattle.joined_panels.specs.Latest.{later_of_ticks};

use crate::links::Links;
use crate::ways::Ways;
use site_types::{Event, Site};
use tick_units::Tick;

/// Which panels of a ring are joined, since when, and when they last were for long.
#[derive(Clone, Copy)]
pub struct JoinedPanels {
    latest: Tick,
    /// How many ticks a word takes to come to each joined panel and to act there.
    spread: u64,
    links: Links,
    ways: Ways,
    ghost some: { 1 ≤ spread },
}

impl JoinedPanels {
    ghost use Rattle.joined_panels.specs.Latest.{IsLatestTick};
    ghost use Rattle.joined_panels.specs.Stands.{StandsFor};
    ghost use Rattle.joined_panels.specs.Windows.{IsWindow};

    /// Before the first tick all links are up.
    pub fn new(site: &Site) -> JoinedPanels
        requires { IsValid site.now }
        ensures { StandsFor site.now [] result }
    {
        let links = Links::new(site.panels);
        let ways = Ways::new();
        JoinedPanels {
            latest: Tick(0),
            spread: 24 * site.format as u64,
            links,
            ways,
        }
    }

    /// Takes the events of the next tick.
    pub fn take_tick(&mut self, now: Tick, events: &[Event])
        ensures { (site : SiteOf) (ticks : List TickBlock) (tick : TickBlock)
            → StandsFor site ticks self.old → now.0 ≡ length ticks + 1
            → tick.events ≡ map event_view events.now → StandsFor site (tick ∷ ticks) self.new }
    {
        self.latest = now;
        if self.links.take_events(events) {
            self.ways.take_links(&self.links, now.0, self.spread);
        }
    }

    /// Whether two panels have been joined from a tick on until now.
    pub fn are_joined_since(&self, one: u8, other: u8, first: u64) -> bool
        requires { (1 ≤ one) × (one ≤ 8) × (1 ≤ other) × (other ≤ 8) }
        ensures { (site : SiteOf) (ticks : List TickBlock) → StandsFor site ticks self.now
            → IsTrue result
            ↔ AreJoined site.panels (moments ticks) one other first (tick_of (moments ticks)) }
    {
        let up = self.ways.way(one, other);
        let down = self.ways.way(other, one);
        let upward = up.is_up_since(first, self.latest.0);
        let downward = down.is_up_since(first, self.latest.0);
        upward || downward
    }

    /// The latest tick from which on two panels were joined for so long that a word came from one to the other and
    /// acted there before now.
    pub fn latest_window(&self, one: u8, other: u8) -> Option<u64>
        requires { (1 ≤ one) × (one ≤ 8) × (1 ≤ other) × (other ≤ 8) }
        ensures { (site : SiteOf) (ticks : List TickBlock) → StandsFor site ticks self.now
            → IsLatestTick (IsWindow site (moments ticks) one other) result }
    {
        let up = self.ways.way(one, other);
        let down = self.ways.way(other, one);
        let upward = up.latest_window(self.latest.0, self.spread);
        let downward = down.latest_window(self.latest.0, self.spread);
        later_of(upward, downward)
    }
}

/// The later of two ticks, where there are some.
fn later_of(one: Option<u64>, other: Option<u64>) -> Option<u64>
    ensures { result ≡ later_of_ticks one other }
{
    match one {
        None => other,
        Some(tick) => match other {
            None => one,
            Some(second) => Some(tick.max(second)),
        },
    }
}
