ghost use Rattle.std.specs.Prelude.{◌≡◌, ◌≤◌, ◌<◌, ◌-◌, [], ◌∷◌, List, ℕ, length};
ghost use Rattle.tick_units.specs.declared.task.Task.TheVariants.{Hold as HoldTask, Link as LinkTask};
ghost use Rattle.site_types.specs.declared.event.Event.TheVariants.{Link as LinkEvent};
ghost use Rattle.site_types.specs.declared.retained.Retained.{Retained as RetainedOf};
ghost use Rattle.site_types.specs.declared.site.Site.{Site as SiteOf};
ghost use Rattle.site_types.specs.Done.{Done as DoneOf};
ghost use Rattle.site_types.specs.Valid.{IsPanel, IsValid};
ghost use Rattle.panel_rules.specs.Moments.{Happened as HappenedOf, Moment as MomentOf, Turned as TurnedOf, tick_of};
ghost use Rattle.panel_rules.specs.Faces.{buzzer_of, last_news, shown_word};
ghost use Rattle.panel_rules.specs.Run.{facts_of, faults_of, faults_with, tells_fault};
ghost use Rattle.panel_rules.specs.Words.{kept_word_of, latest_word, word_made};
ghost use Rattle.panel_rules.specs.Zones.{held_answers};
ghost use Rattle.panel_bridges.specs.FactMasks.{AreFacts};
ghost use Rattle.plain_history.specs.Histories.{all_done, history, moment_of};

use crate::indications::Indications;
use marker_table::Facts;
use panel_conditions::{Outside, has_fault, sounds};
use panel_links::Ring;
use plain_history::{
    Done, Moment, Settings, broken_loops, muted_before, shorted_loops, shown_supplies,
};
use plain_words::Evidence;
use site_types::{Answer, Buzzer, Event, FaultSet, Site, Word, mask_from_8};
use tick_units::{Task, Tick};

/// What each panel of a site shows of its own and keeps of the others.
#[derive(Drop)]
pub struct Network {
    panels: u8,
    ring: Ring,
    /// By panel, panel 1 being the first.
    indications: [Indications; 8],
    ghost same: { ring.panels ≡ panels },
    ghost few: { panels ≤ 8 },
}

impl Network {
    ghost use Rattle.plain_panel.specs.Network.{HasPanel, IsNotHold, IsOtherTask, NetworkHears, NetworkTakes};
    ghost use Rattle.plain_panel.specs.Network.{ShowsAtHold, StandsFor, TakesHold, TellsOutside, indications_in};

    /// The panels of a site before its first tick.
    pub fn new(site: &Site) -> Network
        requires { IsValid site.now }
        ensures stands { (kept : RetainedOf) (done : List DoneOf)
            → StandsFor site.now kept done [] result }
        ensures panels { result.panels ≡ site.now.panels }
    {
        Network {
            panels: site.panels,
            ring: Ring::new(site.panels),
            indications: [Indications::nothing(); 8],
        }
    }

    /// Hold of a panel has its turn, after these moments and the tick that began last. The answers that it
    /// has taken after the turn are given, and its outputs without confirmation then, by bit `number - 1`.
    pub fn hold(
        &mut self,
        settings: &Settings,
        before: &[Moment],
        now: Tick,
        panel: u8,
        answers: &[Answer],
        unconfirmed: u32,
    )
        ensures stands { TakesHold settings.now.site.now (history before.now) now.0 panel
            unconfirmed settings.now.kept.now (all_done settings.now.done.now) answers.now self.old
            self.new }
        ensures panels { self.new.panels ≡ self.old.panels }
    {
        if panel >= 1 && panel <= self.panels {
            let outside = self.outside(settings.site, before, now, panel, unconfirmed);
            let evidence = Evidence {
                settings: *settings,
                answers,
            };
            let faults = evidence.answered_faults(panel, now, &outside);
            let fault = has_fault(&faults);
            let word = evidence.answered_word(panel, now, fault);
            self.show(now, panel, word, faults);
        }
    }

    fn indications(&self, panel: u8) -> Indications
        requires { HasPanel self.now panel }
        ensures { result ≡ indications_in self.now panel }
    {
        self.indications[panel as usize - 1]
    }

    // Shows what a turn of Hold of a panel made.
    fn show(&mut self, now: Tick, panel: u8, word: Word, faults: FaultSet)
        requires { HasPanel self.old panel }
        ensures stands { ShowsAtHold now.0 panel word faults self.old self.new }
        ensures panels { self.new.panels ≡ self.old.panels }
    {
        let shown = self.indications(panel);
        self.indications[panel as usize - 1] = shown.then(now, word, faults);
    }

    // What stands besides missing points at a turn of Hold made now, with the outputs without confirmation then.
    fn outside(
        &self,
        site: &Site,
        before: &[Moment],
        now: Tick,
        panel: u8,
        unconfirmed: u32,
    ) -> Outside
        requires { HasPanel self.now panel }
        ensures { TellsOutside site.now (history before.now) now.0 panel unconfirmed self.now
            result }
    {
        Outside {
            supply: shown_supplies(&site.waits, panel, before),
            broken: broken_loops(site, panel, before),
            shorted: shorted_loops(site, panel, before),
            silent: self.ring.silent(panel, now, site.profile().silent()),
            links: self.ring.links_down(panel),
            unconfirmed,
        }
    }

    /// Anything but a turn of Hold befalls the site, after the tick that began last.
    pub fn step(&mut self, now: Tick, moment: &Moment)
        ensures stands { IsNotHold moment.now
            → NetworkTakes now.0 (moment_of moment.now) self.old self.new }
        ensures panels { self.new.panels ≡ self.old.panels }
    {
        match *moment {
            Moment::Began => {}
            Moment::Happened(event) => self.hear(&event),
            Moment::Turned { panel, task } => self.turn(now, panel, task),
            Moment::Kept { .. } => {}
        }
    }

    fn hear(&mut self, event: &Event)
        ensures stands { NetworkHears event.now self.old self.new }
        ensures panels { self.new.panels ≡ self.old.panels }
    {
        match *event {
            Event::Link { link, up } => self.set_link(link, up),
            Event::Point { .. }
            | Event::Cable { .. }
            | Event::Supply { .. }
            | Event::Confirmed { .. }
            | Event::Op { .. } => {}
        }
    }

    fn set_link(&mut self, link: u8, up: bool)
        ensures stands { NetworkHears (LinkEvent link up) self.old self.new }
        ensures panels { self.new.panels ≡ self.old.panels }
    {
        if link >= 1 && link <= 8 {
            self.ring.set_link(link, up);
        }
    }

    fn turn(&mut self, now: Tick, panel: u8, task: Task)
        ensures stands { IsOtherTask task
            → NetworkTakes now.0 (TurnedOf panel task) self.old self.new }
        ensures panels { self.new.panels ≡ self.old.panels }
    {
        match task {
            Task::Link => self.relay(now, panel),
            Task::Poll
            | Task::Decide
            | Task::Supply
            | Task::Desk
            | Task::Hold
            | Task::Effect
            | Task::Drive
            | Task::Keep => {}
        }
    }

    fn relay(&mut self, now: Tick, panel: u8)
        ensures stands { NetworkTakes now.0 (TurnedOf panel LinkTask) self.old self.new }
        ensures panels { self.new.panels ≡ self.old.panels }
    {
        if panel >= 1 && panel <= self.panels {
            let word = self.indications(panel).word;
            self.ring.turn(now, panel, word);
        }
    }

    /// The latest word of a panel.
    pub fn latest_word(&self, panel: u8) -> Word
        requires { HasPanel self.now panel }
        ensures { (site : SiteOf) (kept : RetainedOf) (done : List DoneOf) (before : List MomentOf)
            → StandsFor site kept done before self.now
            → result ≡ latest_word site kept done (tells_fault site kept done) panel before }
    {
        self.indications(panel).word
    }

    /// The word of a panel that another one keeps.
    pub fn kept_word(&self, at: u8, of: u8) -> Word
        requires at { HasPanel self.now at }
        requires from { HasPanel self.now of }
        ensures { (site : SiteOf) (kept : RetainedOf) (done : List DoneOf) (before : List MomentOf)
            → StandsFor site kept done before self.now
            → result ≡ kept_word_of site kept done (tells_fault site kept done) at of before }
    {
        self.ring.word(at, of)
    }

    /// The word of a panel that another one shows.
    pub fn shown_word(&self, at: u8, of: u8) -> Word
        requires at { HasPanel self.now at }
        requires from { HasPanel self.now of }
        ensures { (site : SiteOf) (kept : RetainedOf) (done : List DoneOf) (before : List MomentOf)
            → StandsFor site kept done before self.now
            → result ≡ shown_word site kept done at before of }
    {
        if of == at {
            self.latest_word(at)
        } else {
            self.kept_word(at, of)
        }
    }

    /// The faults that a panel shows.
    pub fn faults(&self, panel: u8) -> FaultSet
        requires { HasPanel self.now panel }
        ensures { (site : SiteOf) (kept : RetainedOf) (done : List DoneOf) (before : List MomentOf)
            → StandsFor site kept done before self.now
            → result ≡ faults_of site kept done panel before }
    {
        self.indications(panel).faults
    }

    /// The last tick in which a panel showed something new; 0 for none.
    pub fn last_news(&self, panel: u8) -> Tick
        requires { HasPanel self.now panel }
        ensures { (site : SiteOf) (kept : RetainedOf) (done : List DoneOf) (before : List MomentOf)
            → StandsFor site kept done before self.now
            → result.0 ≡ last_news site kept done panel before }
    {
        self.indications(panel).news
    }

    /// What the buzzer of a panel sounds.
    pub fn buzzer(&self, site: &Site, done: &[Done], panel: u8) -> Buzzer
        requires { HasPanel self.now panel }
        ensures { (kept : RetainedOf) (before : List MomentOf)
            → StandsFor site.now kept (all_done done.now) before self.now
            → result ≡ buzzer_of site.now kept (all_done done.now) panel before }
    {
        let shown = self.indications(panel);
        let muted = muted_before(site, panel, shown.word.stamp, done);
        sounds(&shown.word, muted.0 < shown.news.0)
    }

    /// The facts of an Effect turn of a panel made now: what the words that it keeps say of zones, and which
    /// tell a fault.
    pub fn facts(&self, panel: u8) -> Facts
        requires { HasPanel self.now panel }
        ensures { (site : SiteOf) (kept : RetainedOf) (done : List DoneOf) (before : List MomentOf)
            → IsValid site → StandsFor site kept done before self.now
            → AreFacts site (facts_of site kept done panel before) result }
    {
        let mut facts = Facts {
            zones: [0; 8],
            manual: [0; 8],
            faults: 0,
        };
        let mut faulty = [false; 8];
        for source in 1..self.panels + 1 {
            let word = self.ring.word(panel, source);
            facts.zones[source as usize - 1] = word.released;
            facts.manual[source as usize - 1] = word.manual;
            faulty[source as usize - 1] = word.fault;
        }
        facts.faults = mask_from_8(&faulty);
        facts
    }
}
