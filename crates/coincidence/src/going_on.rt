//! Alarms of a run that go on in plain zones: they change nothing of what is kept, and those of one zone mean the same.

ghost use Rattle.std.specs.Prelude.{◌≡◌, [], ◌∷◌, ◌<◌, true};
ghost use Rattle.answer_lanes.specs.Points.{answer_at};
ghost use Rattle.answer_lanes.specs.Runs.{items_of};

use crate::bits::{bits_from, lowest_bit, lowest_bit_or, one_bit};
use crate::decide::Decide;
use crate::gathering::put_eight;
use crate::plain_zone::PlainZone;
use crate::rules::telling_group;
use crate::zone_part::ZonePart;
use answer_lanes::{AnswerGroup, FindingBlock, Lane, Run};
use site_types::{Answer, Heard, with_bit_8};
use tick_units::Tick;

impl Decide {
    ghost use Rattle.coincidence.specs.Changes.{CanTakeAnswerRun, TakesAnswerRun};
    ghost use Rattle.coincidence.specs.GoingOn.{AreGoingOn, AreMarkedAlarms, ConfirmsPart, IsFrontInZone, IsToBeMarked};
    ghost use Rattle.coincidence.specs.GoingOn.{MarksGoingOn};
    ghost use Rattle.coincidence.specs.Resting.{IsWithinEight, TellsChanging};
    ghost use Rattle.coincidence.specs.PlainZones.{IsOfPoint};
    ghost use Rattle.coincidence.specs.Stands.{CanTake};

    // Whether those answers of a run within a group of eight of which the bits tell are all alarms that go on.
    pub(crate) fn all_go_on(&self, run: &Run<AnswerGroup>, changing: u8) -> bool
        requires within { IsWithinEight run.now }
        requires tells { TellsChanging self.now run.now changing }
        ensures { result ≡ true → AreGoingOn self.now run.now changing }
    {
        if run.first.stamp.0 < self.since.0 {
            return false;
        }
        changing & !self.marked_bits(run) == 0
    }

    // Puts the findings of the answers of a run within a group of eight, where those that may change what is kept of
    // their points, by these bits, are all alarms that go on: in one step for each zone.
    pub(crate) fn tell_going_on(
        &self,
        run: &Run<AnswerGroup>,
        changing: u8,
        findings: &mut Lane<FindingBlock>,
    )
        requires some { 0 < changing }
        requires within { IsWithinEight run.now }
        requires tells { TellsChanging self.now run.now changing }
        requires going { AreGoingOn self.now run.now changing }
        requires can { CanTakeAnswerRun self.now run.now findings.old }
        ensures { TakesAnswerRun self.now run.now findings.old self.now findings.new }
    {
        let mut place = run.taken;
        let mut left = changing;
        while left != 0 {
            let part = self.part_going_on(run, left);
            let end = run.taken + lowest_bit_or(part.behind, run.count);
            let told = Run {
                first: telling_group(&run.first, part.zones),
                taken: place,
                count: end - place,
            };
            put_eight(told, findings);
            place = end;
            left = part.behind;
        }
    }

    // Of those alarms of a run within a group of eight of which the bits tell: the zones that the first one confirms,
    // and the bits of the others from the first one on that lies in another zone.
    pub(crate) fn part_going_on(&self, run: &Run<AnswerGroup>, bits: u8) -> ZonePart
        requires some { 0 < bits }
        requires within { IsWithinEight run.now }
        requires going { AreGoingOn self.now run.now bits }
        requires can { CanTake self.now (items_of answer_at run.now) }
        ensures { ConfirmsPart self.now run.now bits result }
    {
        let bit = lowest_bit(bits);
        let point = self
            .points
            .at(run.first.point as usize + (run.taken + bit) as usize);
        let zone = &self.zones[point.zone as usize];
        let others = with_bit_8(bits, bit, false);
        ZonePart {
            zones: one_bit(zone.number, true),
            behind: self.bits_behind(run, others, point.zone),
        }
    }

    // Which of the answers of a run within a group of eight are alarms of points whose alarms go on, a bit for each.
    fn marked_bits(&self, run: &Run<AnswerGroup>) -> u8
        requires { IsWithinEight run.now }
        ensures { AreMarkedAlarms self.now run.now result }
    {
        let going = self.going_on.eight_from(run.first.point as usize);
        bits_from(going & run.first.alarms_from(0), run.taken)
    }

    // Of the bits that tell of alarms of a run within a group of eight: those from the first one on whose point isn't
    // in this zone.
    fn bits_behind(&self, run: &Run<AnswerGroup>, bits: u8, zone: u16) -> u8
        requires within { IsWithinEight run.now }
        requires going { AreGoingOn self.now run.now bits }
        requires can { CanTake self.now (items_of answer_at run.now) }
        ensures { IsFrontInZone self.now run.now zone bits result }
    {
        let first = run.first.point as usize + run.taken as usize;
        let mut left = bits;
        while left != 0 {
            let bit = lowest_bit(left);
            if self.points.at(first + bit as usize).zone != zone {
                return left;
            }
            left = with_bit_8(left, bit, false);
        }
        left
    }

    // Marks the point of an alarm in a zone of which this is said, if its alarms go on from now on.
    pub(crate) fn mark_going_on(&mut self, answer: &Answer, zone: &PlainZone)
        requires can { CanTake self.old (answer.now ∷ []) }
        requires zone { IsOfPoint answer.now self.old zone.now }
        ensures { MarksGoingOn self.old self.new }
    {
        if !self.is_steady(answer, zone) {
            return;
        }
        self.going_on.set(answer.point as usize, true);
        self.since = Tick(self.since.0.max(answer.stamp.0));
    }

    // Whether the next alarms of the answer's point, in a plain zone, would change nothing and count.
    fn is_steady(&self, answer: &Answer, zone: &PlainZone) -> bool
        requires can { CanTake self.now (answer.now ∷ []) }
        requires zone { IsOfPoint answer.now self.now zone.now }
        ensures { result ≡ true → IsToBeMarked self.now answer.now }
    {
        let point = self.points.at(answer.point as usize);
        if point.off.since.0 >= answer.stamp.0 {
            return false;
        }
        let stays = point.stays_at(Heard::Alarm, true, zone.floor);
        stays & zone.settled & !(zone.blocked | point.off.now) & !point.manual
    }
}
