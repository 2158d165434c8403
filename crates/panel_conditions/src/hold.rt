ghost use Rattle.std.specs.Prelude.{◌≡◌, ◌<◌, ◌≤◌, ◌^◌, [], ℕ, List, All, IfOk};
ghost use Rattle.tick_units.specs.Lane.{after_turn};
ghost use Rattle.site_types.specs.Valid.{IsValid};
ghost use Rattle.answer_lanes.specs.Blocks.{block_finding_at};
ghost use Rattle.answer_lanes.specs.Runs.{HoldsItems, all_items};

use crate::block_runs::take_run;
use crate::news::has_fault;
use crate::outside::Outside;
use crate::points::Points;
use crate::shown::Shown;
use crate::signs::Signs;
use crate::zones::Zones;
use answer_lanes::{FindingBlock, Lane, Run};
use arrayvec::ArrayVec;
use site_types::{Buzzer, FaultSet, Operation, Retained, Site, Word};
use std::alloc::Global;
use tick_units::{LastDone, NoMemory, Tick};

/// Holds the conditions of a panel: its zones, faults and buzzer, and how often it entered the fire alarm condition.
#[derive(Drop)]
pub struct Hold {
    zones: Zones,
    points: Points,
    muted: LastDone,
    shown: Shown,
    /// The runs that a turn takes, in a room that each turn uses again.
    batch: ArrayVec<Run<FindingBlock>, 32>,
}

impl Hold {
    ghost use Rattle.panel_conditions.specs.Words.{alarms_after, faults_after, word_after};
    ghost use Rattle.panel_conditions.specs.Shown.{buzzer_after, entries_after};
    ghost use Rattle.panel_conditions.specs.Changes.{AppliesOperation, MakesTurn, NotesOperation, ShowsWhatFollows};
    ghost use Rattle.panel_conditions.specs.Changes.{ShowsAgain, ShowsAs, StaysSettled, WatchesMore, moved_from};
    ghost use Rattle.panel_conditions.specs.Changes.{turn_from};
    ghost use Rattle.panel_conditions.specs.Stands.{HoldsFor, IsUnchanged, Settled, TakesFindings, shown_now};

    /// Nothing found or shown, with what is retained in force.
    pub fn new(alloc: Global, site: &Site, panel: u8, kept: &Retained) -> Result<Hold, NoMemory>
        ensures { IfOk result (λ hold. IsValid site.now
            → HoldsFor site.now kept.now panel [] [] hold) }
    {
        let zones = Zones::new(alloc, site, panel)?;
        let points = Points::new(alloc, site, panel, kept)?;
        Ok(Hold {
            zones,
            points,
            muted: LastDone::never(),
            shown: Shown::nothing(),
            batch: ArrayVec::new(),
        })
    }

    /// Takes the findings that a turn moves, and shows what follows from them, from the operations done
    /// before the tick and from what the other parts tell.
    pub fn turn(&mut self, now: Tick, findings: &mut Lane<FindingBlock>, outside: &Outside)
        requires { findings.old.quota ≤ 32 }
        ensures stands { MakesTurn self.old (turn_from now.0 findings.old outside.now) self.new }
        ensures lane { findings.new ≡ after_turn findings.old }
    {
        self.turn_and_compare(now, findings, outside);
    }

    /// Has its turn as [`Hold::turn`] does, and tells whether zones in alarm and in first state, faults and buzzer
    /// are shown as they were before.
    pub fn turn_and_compare(
        &mut self,
        now: Tick,
        findings: &mut Lane<FindingBlock>,
        outside: &Outside,
    ) -> bool
        requires { findings.old.quota ≤ 32 }
        ensures stands { MakesTurn self.old (turn_from now.0 findings.old outside.now) self.new }
        ensures lane { findings.new ≡ after_turn findings.old }
        ensures same { result ≡ true → ShowsAgain self.old.shown self.new.shown }
        ensures must { ShowsAgain self.old.shown self.new.shown → result ≡ true }
    {
        self.take_turn(findings);
        self.show(now, outside)
    }

    /// Takes an operation of the panel that was done in a tick. It is in force from the next tick on, so what is shown
    /// stays until then.
    pub fn apply(&mut self, operation: &Operation, at: Tick)
        ensures { AppliesOperation self.old operation.now at.0 self.new }
    {
        self.zones.apply(operation, at);
        self.points.apply(operation, at);
        self.muted.raise_if(is_mute(operation), at);
    }

    /// Takes note that an operation was done at another panel in a tick. It changes nothing of this one.
    pub fn apply_elsewhere(&mut self, at: Tick)
        ensures { NotesOperation self.old at.0 self.new }
    {
        self.zones.note(at);
    }

    /// The panel's word, made in its latest turn.
    pub fn word(&self) -> Word
        ensures { ShowsAs self.now result word_after }
    {
        self.shown.word
    }

    /// The zones in alarm, bit `number - 1`.
    pub fn zones(&self) -> u32
        ensures { ShowsAs self.now result alarms_after }
    {
        self.shown.word.alarm
    }

    /// The faults that are shown.
    pub fn faults(&self) -> FaultSet
        ensures { ShowsAs self.now result faults_after }
    {
        self.shown.faults
    }

    /// What the buzzer sounds.
    pub fn buzzer(&self) -> Buzzer
        ensures { ShowsAs self.now result buzzer_after }
    {
        self.shown.buzzer
    }

    /// How often the panel entered the fire alarm condition since opening.
    pub fn counter_entries(&self) -> u64
        ensures { ShowsAs self.now result entries_after }
    {
        self.shown.entries
    }

    // Takes the findings that a turn moves.
    fn take_turn(&mut self, findings: &mut Lane<FindingBlock>)
        requires { findings.old.quota ≤ 32 }
        ensures watches { WatchesMore self.old (moved_from findings.old) self.new }
        ensures settled { StaysSettled self.old self.new }
        ensures kept { TakesFindings self.old self.new }
        ensures lane { findings.new ≡ after_turn findings.old }
    {
        if findings.len() == 0 {
            return;
        }
        if let Some(runs) = findings.turn_runs() {
            take_runs(&mut self.points, &mut self.zones, runs);
            findings.pass_turn();
        } else {
            self.take_first(findings);
        }
    }

    // Takes the first findings, as many as a turn moves.
    fn take_first(&mut self, findings: &mut Lane<FindingBlock>)
        requires { findings.old.quota ≤ 32 }
        ensures watches { WatchesMore self.old (moved_from findings.old) self.new }
        ensures settled { StaysSettled self.old self.new }
        ensures kept { TakesFindings self.old self.new }
        ensures lane { findings.new ≡ after_turn findings.old }
    {
        self.batch.clear();
        findings.take_turn(&mut self.batch);
        take_runs(&mut self.points, &mut self.zones, self.batch.as_slice());
    }

    // Shows what follows at a tick, which isn't before that of the latest turn, and tells whether it is as before.
    fn show(&mut self, now: Tick, outside: &Outside) -> bool
        ensures fits { now.0 < 2 ^ 64 }
        ensures shows { ShowsWhatFollows self.old now.0 outside.now self.new }
        ensures settled { (tick : ℕ) → Settled tick self.old.zones → tick ≤ now.0
            → Settled now.0 self.new.zones }
        ensures same { result ≡ true → ShowsAgain self.old.shown self.new.shown }
        ensures must { ShowsAgain self.old.shown self.new.shown → result ≡ true }
    {
        self.zones.draw(now);
        if self.is_unchanged(outside) {
            self.shown.word.stamp = now;
            true
        } else {
            self.show_anew(now, outside)
        }
    }

    // Whether nothing was told since it was shown, nor an operation done, so that the same is shown again.
    fn is_unchanged(&self, outside: &Outside) -> bool
        ensures { result ≡ true → IsUnchanged outside.now self.now }
    {
        !self.points.has_changed()
            && self.zones.moved().0 < self.shown.word.stamp.0
            && has_signs(&self.shown.word, &self.zones.signs())
            && has_told(&self.shown.faults, outside)
    }

    // Shows what follows from zones that were drawn at a tick, and tells whether it is as before.
    fn show_anew(&mut self, now: Tick, outside: &Outside) -> bool
        ensures shown { self.new.shown ≡ shown_now now.0 outside.now self.old }
        ensures points { self.new.points ≡ record self.old.points { changed = false } }
        ensures rest { (self.new.zones ≡ self.old.zones) × (self.new.muted ≡ self.old.muted) }
        ensures same { result ≡ true → ShowsAgain self.old.shown self.new.shown }
        ensures must { ShowsAgain self.old.shown self.new.shown → result ≡ true }
    {
        let faults = outside.with_missing(self.points.showing(now));
        let word = self.zones.signs().word(now, has_fault(&faults));
        let muted = self.muted.before(now);
        let shown = self.shown.after(word, faults, muted);
        let same = shown.shows_again(&self.shown);
        self.shown = shown;
        self.points.note_shown();
        same
    }
}

ghost use Rattle.std.specs.Prelude.{true, false};
ghost use Rattle.panel_conditions.specs.Words.{word_with};
ghost use Rattle.panel_conditions.specs.Stands.{outside_of};

// Whether a word tells the signs of the zones.
fn has_signs(word: &Word, signs: &Signs) -> bool
    ensures { result ≡ true → word.now ≡ word_with word.now.stamp.0 word.now.fault signs.now }
{
    word.alarm == signs.alarm
        && word.manual == signs.manual
        && word.released == signs.released
        && word.first == signs.first
}

// Whether faults are those that the other parts tell.
fn has_told(faults: &FaultSet, outside: &Outside) -> bool
    ensures { result ≡ true → outside.now ≡ outside_of faults.now }
{
    outside.supply == faults.supply
        && outside.broken == faults.broken
        && outside.shorted == faults.shorted
        && outside.silent == faults.silent
        && outside.links == faults.links
        && outside.unconfirmed == faults.unconfirmed
}

ghost use Rattle.panel_conditions.specs.Changes.{WatchesPointsMore, WatchesZonesMore, ZonesStaySettled};

// Takes the findings of runs, one run after the other.
fn take_runs(points: &mut Points, zones: &mut Zones, runs: &[Run<FindingBlock>])
    requires { All HoldsItems runs.now }
    ensures points { WatchesPointsMore points.old (all_items block_finding_at runs.now) points.new }
    ensures zones { WatchesZonesMore zones.old (all_items block_finding_at runs.now) zones.new }
    ensures settled { ZonesStaySettled zones.old zones.new }
    ensures moved { zones.new.moved ≡ zones.old.moved }
    ensures off { (points.new.off ≡ points.old.off) × (points.new.zone_off ≡ points.old.zone_off) }
    ensures missing { points.new.changed ≡ false
        → (points.old.changed ≡ false) × (points.new.missing ≡ points.old.missing) }
{
    for run in runs {
        take_run(points, zones, run);
    }
}

ghost use Rattle.site_types.specs.Done.{is_mute as is_muting};

fn is_mute(operation: &Operation) -> bool
    ensures { result ≡ is_muting operation.now }
{
    matches!(operation, Operation::Mute)
}
