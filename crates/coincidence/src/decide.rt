ghost use Rattle.std.specs.Prelude.{◌≡◌, ◌<◌, ◌≤◌, [], ◌∷◌, IfOk, false, length, true};
ghost use Rattle.site_types.specs.Valid.{IsValid};
ghost use Rattle.tick_units.specs.Lane.{HasRoom, after_turn};

use crate::bits::{one_bit, two_bits};
use crate::judgement::Judgement;
use crate::known_zones::KnownZones;
use crate::observation::Observation;
use crate::point_watch::PointWatch;
use crate::point_watches::PointWatches;
use crate::rules::{counts_unless, is_on, may_pair, plain_finding};
use crate::watches::watch_zones;
use crate::zone_watch::ZoneWatch;
use answer_lanes::{AnswerBlock, BlockSet, FindingBlock, Lane, blocks_of_panel};
use arrayvec::ArrayVec;
use coincidence_rules::Finding;
use site_types::{Answer, Heard, Item, Operation, Retained, Site, has_bit_8};
use std::alloc::Global;
use tick_units::{LastDone, NoMemory, Tick};

/// Decides which answers of a panel's points confirm and release which of its zones.
///
/// It has no list of answers. Of each point it keeps where its run of counted answers began and how many of
/// its last answers were silent, of each zone that isn't plain the latest answers of two points, and of each
/// setting one earlier value: that of the tick in which it was set. Besides it keeps which points' alarms change
/// nothing of all this.
#[derive(Drop)]
pub struct Decide {
    pub(crate) panel: u8,
    /// By the points' places in the site.
    pub(crate) points: PointWatches,
    /// By the zones' places in the site.
    pub(crate) zones: Vec<ZoneWatch>,
    /// The last reset of the panel.
    pub(crate) reset: LastDone,
    /// The marked points: their alarms count and change nothing of what is kept.
    pub(crate) going_on: BlockSet,
    /// The latest tick in which one was marked: nothing is said of alarms of earlier ticks.
    pub(crate) since: Tick,
    /// What those of whole blocks tell.
    pub(crate) told: KnownZones,
}

impl Decide {
    ghost use Rattle.answer_lanes.specs.Places.{HasNone};
    ghost use Rattle.coincidence_rules.specs.Counted.{is_alarm, is_silent};
    ghost use Rattle.coincidence.specs.Changes.{AppliesOperation, FindsNext, KeepsOthers, PutsFindings, TakesAnswers};
    ghost use Rattle.coincidence.specs.Changes.{TakesJudged};
    ghost use Rattle.coincidence.specs.PlainZones.{KeepsKnown};
    ghost use Rattle.coincidence.specs.Queries.{AreKeptOf, FindsJudged, FindsLast, ObservesJudged, TellsCounted};
    ghost use Rattle.coincidence.specs.Queries.{TellsFloor, TellsFloorOf};
    ghost use Rattle.coincidence.specs.Queries.{TellsJudgement};
    ghost use Rattle.coincidence.specs.Resting.{LeavesPoint};
    ghost use Rattle.coincidence.specs.Stands.{DecidesFor, CanObserve, CanTake, taken_by, CanApply};
    ghost use Rattle.coincidence.specs.Stands.{off_operation};

    /// Begins with what is kept of a panel's site.
    pub fn new(alloc: Global, site: &Site, panel: u8, kept: &Retained) -> Result<Decide, NoMemory>
        requires { IsValid site.now }
        ensures { IfOk result (λ decide. DecidesFor site.now kept.now panel [] [] decide) }
    {
        let blocks = blocks_of_panel(alloc, site.points.as_slice(), panel)?;
        let points = PointWatches::new(alloc, site.points.as_slice(), kept, blocks.as_slice())?;
        let zones = watch_zones(alloc, site.zones.as_slice(), kept)?;
        let going_on = BlockSet::first(alloc, site.points.len(), false, blocks.as_slice())?;
        let told = KnownZones::of_blocks(
            alloc,
            site.points.as_slice(),
            site.zones.as_slice(),
            blocks.as_slice(),
        )?;
        Ok(Decide {
            panel,
            points,
            zones,
            reset: LastDone::never(),
            going_on,
            since: Tick(0),
            told,
        })
    }

    /// Takes the answers of a turn, and puts one finding for each.
    pub fn turn(&mut self, answers: &mut Lane<AnswerBlock>, findings: &mut Lane<FindingBlock>)
        requires quota { answers.old.quota ≤ 32 }
        requires room { HasRoom findings.old 32 }
        requires may { CanTake self.old (taken_by answers.old) }
        ensures answers { answers.new ≡ after_turn answers.old }
        ensures taken { TakesAnswers self.old (taken_by answers.old) self.new }
        ensures findings { PutsFindings self.old (taken_by answers.old) findings.old findings.new }
    {
        if answers.len() == 0 {
            return;
        }
        if let Some(runs) = answers.turn_runs() {
            self.take_runs(runs, findings);
            answers.pass_turn();
            return;
        }
        let mut batch = ArrayVec::new();
        answers.take_turn(&mut batch);
        self.take_runs(batch.as_slice(), findings);
    }

    /// An operation of the panel was done in a tick, counted from 1. It is in force from the next tick on.
    pub fn apply(&mut self, operation: &Operation, at: Tick)
        requires { CanApply self.old operation.now at.0 }
        ensures { AppliesOperation self.old operation.now at.0 self.new }
    {
        self.going_on.clear();
        match *operation {
            Operation::Reset => self.reset.raise(at),
            Operation::Cancel(zone) => self.zones[zone as usize].cancel(at),
            Operation::Test(zone) => self.zones[zone as usize].set_test(true, at),
            Operation::Untest(zone) => self.zones[zone as usize].set_test(false, at),
            Operation::Disable(item) => self.set_off(&item, true, at),
            Operation::Enable(item) => self.set_off(&item, false, at),
            Operation::Mute
            | Operation::Override
            | Operation::Silence
            | Operation::Resound
            | Operation::Delays(_)
            | Operation::Clear => {}
        }
    }

    // A point, zone or output of the panel was disabled or enabled in a tick.
    fn set_off(&mut self, item: &Item, off: bool, at: Tick)
        requires can { CanApply self.old (off_operation off item.now) at.0 }
        requires none { HasNone self.old.going_on }
        ensures { AppliesOperation self.old (off_operation off item.now) at.0 self.new }
    {
        match *item {
            Item::Point(point) => self.points.set_off(point as usize, off, at),
            Item::Zone(zone) => self.zones[zone as usize].set_off(off, at),
            Item::Output(_) => {}
        }
    }

    // Whether an answer leaves what is kept of its point as it is.
    fn is_left_by(&self, answer: &Answer) -> bool
        ensures { result ≡ true → LeavesPoint self.now answer.now }
    {
        has_bit_8(self.points.left_by(answer.heard, answer.point as usize), 0)
    }

    // Takes an answer: what it means, by those taken up to it.
    pub(crate) fn take(&mut self, answer: &Answer) -> Finding
        requires { CanTake self.old (answer.now ∷ []) }
        ensures taken { TakesAnswers self.old (answer.now ∷ []) self.new }
        ensures found { FindsNext self.old answer.now result }
        ensures others { KeepsOthers answer.now.point self.old self.new }
    {
        match answer.heard {
            Heard::Alarm => self.take_alarm(answer),
            Heard::Quiet | Heard::Silent => self.take_no_alarm(answer),
        }
    }

    // Takes an answer that is no alarm.
    pub(crate) fn take_no_alarm(&mut self, answer: &Answer) -> Finding
        requires may { CanTake self.old (answer.now ∷ []) }
        requires quiet { is_alarm answer.now.heard ≡ false }
        ensures taken { TakesAnswers self.old (answer.now ∷ []) self.new }
        ensures found { FindsNext self.old answer.now result }
        ensures others { KeepsOthers answer.now.point self.old self.new }
    {
        if self.is_left_by(answer) {
            return plain_finding(answer);
        }
        self.note_quiet(answer);
        self.quiet_finding(answer)
    }

    // Takes note of an answer that is no alarm: it ends the run of its point, and makes no pair.
    pub(crate) fn note_quiet(&mut self, answer: &Answer)
        requires { CanTake self.old (answer.now ∷ []) }
        ensures taken { is_alarm answer.now.heard ≡ false
            → TakesAnswers self.old (answer.now ∷ []) self.new }
        ensures others { KeepsOthers answer.now.point self.old self.new }
    {
        self.points.note(
            answer.point as usize,
            answer.heard,
            false,
            Tick(0),
            answer.stamp,
        );
        self.going_on.set(answer.point as usize, false);
    }

    // What an answer means that is no alarm and was the last one taken: it tells of no zone.
    fn quiet_finding(&self, answer: &Answer) -> Finding
        requires { CanObserve self.now answer.now }
        ensures { is_alarm answer.now.heard ≡ false → FindsLast self.now answer.now result }
    {
        Finding {
            missing: self.points.at(answer.point as usize).is_missing(),
            ..plain_finding(answer)
        }
    }

    // Takes an alarm, in a zone of any type.
    pub(crate) fn take_alarm(&mut self, answer: &Answer) -> Finding
        requires { CanTake self.old (answer.now ∷ []) }
        ensures taken { TakesAnswers self.old (answer.now ∷ []) self.new }
        ensures found { FindsNext self.old answer.now result }
        ensures others { KeepsOthers answer.now.point self.old self.new }
    {
        let point = self.points.at(answer.point as usize);
        let zone = &self.zones[point.zone as usize];
        let judgement = self.judge(answer, point, zone);
        self.note_alarm(answer, &judgement);
        self.coincidence_finding(answer, &judgement)
    }

    // What the operations done before an answer say of it.
    fn judge(&self, answer: &Answer, point: &PointWatch, zone: &ZoneWatch) -> Judgement
        requires may { CanObserve self.now answer.now }
        requires read { AreKeptOf self.now answer.now point.now zone.now }
        ensures { TellsJudgement self.now answer.now result }
    {
        Judgement {
            counted: self.counts(answer, point, zone),
            floor: self.floor_of(zone, answer.stamp),
        }
    }

    // Takes note of an alarm of which this is said.
    pub(crate) fn note_alarm(&mut self, answer: &Answer, judgement: &Judgement)
        requires { CanTake self.old (answer.now ∷ []) }
        ensures taken { TakesJudged self.old answer.now judgement.now self.new }
        ensures others { KeepsOthers answer.now.point self.old self.new }
        ensures known { KeepsKnown self.old self.new }
    {
        let place = answer.point as usize;
        let point = self.points.at(place);
        let zone = point.zone as usize;
        let manual = point.manual;
        self.points.note(
            place,
            answer.heard,
            judgement.counted,
            judgement.floor,
            answer.stamp,
        );
        self.going_on.set(place, false);
        let watch = &mut self.zones[zone];
        watch.note(
            may_pair(judgement.counted, manual, watch.rule),
            answer.point,
            answer.stamp,
        );
    }

    // What an alarm means of which this is said and which was the last answer taken, by the answers before it.
    fn coincidence_finding(&self, answer: &Answer, judgement: &Judgement) -> Finding
        requires { CanObserve self.now answer.now }
        ensures { FindsJudged self.now answer.now judgement.now result }
    {
        let observation = self.observe(answer, judgement);
        let point = self.points.at(answer.point as usize);
        let zone = &self.zones[point.zone as usize];
        let partner_finding = self.partner_finding(zone, &observation);
        let number = zone.number;
        let counted = one_bit(number, observation.counted);
        let manual = one_bit(number, observation.calls());
        Finding {
            stamp: answer.stamp,
            point: answer.point,
            counted,
            confirmed: two_bits(
                number,
                observation.confirms_own(zone.rule),
                partner_finding.number,
                partner_finding.confirmed,
            ),
            manual,
            released: two_bits(
                number,
                observation.releases_own(zone.rule),
                partner_finding.number,
                partner_finding.released,
            ),
            missing: point.is_missing(),
        }
    }

    // All by which an answer is found to confirm or release a zone.
    fn observe(&self, answer: &Answer, judgement: &Judgement) -> Observation
        requires { CanObserve self.now answer.now }
        ensures { ObservesJudged self.now answer.now judgement.now result }
    {
        let point = self.points.at(answer.point as usize);
        let place = point.zone as usize;
        let partner = self.zones[place].partner;
        let own_second = self.second(place, judgement.floor, answer);
        let partner_second = self.partner_second(partner, answer);
        Observation {
            stamp: answer.stamp,
            counted: judgement.counted,
            manual: point.manual,
            run: point.run,
            floor: judgement.floor,
            own_second,
            partner_second,
        }
    }

    // Whether an answer of a point in a zone counts.
    fn counts(&self, answer: &Answer, point: &PointWatch, zone: &ZoneWatch) -> bool
        requires may { CanObserve self.now answer.now }
        requires read { AreKeptOf self.now answer.now point.now zone.now }
        ensures { TellsCounted self.now answer.now result }
    {
        let off = is_on(&point.off, answer.stamp);
        let zone_off = is_on(&zone.off, answer.stamp);
        let test = is_on(&zone.test, answer.stamp);
        counts_unless(answer.heard, off, zone_off, test)
    }

    // The last floor of a zone before a tick, which isn't earlier than the operations done.
    fn floor_of(&self, zone: &ZoneWatch, x: Tick) -> Tick
        ensures { TellsFloorOf self.now zone.now x.0 result.0 }
    {
        Tick(self.reset.before(x).0.max(zone.moved.before(x).0))
    }

    pub(crate) fn floor_at(&self, zone: usize, x: Tick) -> Tick
        requires { zone < length self.now.zones.items }
        ensures { TellsFloor self.now zone x.0 result.0 }
    {
        self.floor_of(&self.zones[zone], x)
    }
}
