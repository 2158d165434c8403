//! Alarms of one tick in a zone that each of them confirms and releases by itself: what the operations say of the zone
//! is read once for all of them.

ghost use Rattle.std.specs.Prelude.{◌≡◌, [], ◌∷◌, IfSome, slice_index_or, true};
ghost use Rattle.coincidence_rules.specs.Counted.{is_alarm};

use crate::bits::one_bit;
use crate::decide::Decide;
use crate::judgement::Judgement;
use crate::plain_zone::PlainZone;
use crate::point_watch::PointWatch;
use crate::rules::is_on;
use coincidence_rules::Finding;
use site_types::{Answer, Heard};
use tick_units::Tick;

impl Decide {
    ghost use Rattle.coincidence.specs.Changes.{FindsNext, KeepsOthers, TakesAnswers, TakesJudged};
    ghost use Rattle.coincidence.specs.PlainZones.{RunGoesOn, IsKnown, IsOfPoint, KeepsKnown, KnowsZone};
    ghost use Rattle.coincidence.specs.Queries.{TellsJudgement};
    ghost use Rattle.coincidence.specs.Stands.{CanObserve, CanTake};

    // Takes an answer: what it means, by those taken up to it. What is known of a zone in its tick is kept for the next
    // answer of that tick.
    #[inline(always)]
    pub(crate) fn take_near(&mut self, answer: &Answer, known: &mut Option<PlainZone>) -> Finding
        requires can { CanTake self.old (answer.now ∷ []) }
        requires known { KnowsZone answer.now.stamp.0 self.old known.old }
        ensures taken { TakesAnswers self.old (answer.now ∷ []) self.new }
        ensures found { FindsNext self.old answer.now result }
        ensures others { KeepsOthers answer.now.point self.old self.new }
        ensures known { KnowsZone answer.now.stamp.0 self.new known.new }
    {
        match answer.heard {
            Heard::Alarm => {
                *known = self.zone_of(answer, *known);
                match *known {
                    Some(zone) => self.take_plain(answer, &zone),
                    None => self.take_alarm(answer),
                }
            }
            Heard::Quiet | Heard::Silent => {
                *known = None;
                self.take_no_alarm(answer)
            }
        }
    }

    // What is known of the zone of an answer's point, if each of its alarms that counts confirms it by itself.
    pub(crate) fn zone_of(&self, answer: &Answer, known: Option<PlainZone>) -> Option<PlainZone>
        requires can { CanTake self.now (answer.now ∷ []) }
        requires known { KnowsZone answer.now.stamp.0 self.now known }
        ensures { IfSome result (IsOfPoint answer.now self.now) }
    {
        let point = self.points.at(answer.point as usize);
        match known {
            Some(zone) if zone.zone == point.zone => Some(zone),
            _ => self.plain_zone(answer, point),
        }
    }

    // What is known of the zone of a point, if each alarm of it that counts confirms the zone by itself.
    pub(crate) fn plain_zone(&self, answer: &Answer, point: &PointWatch) -> Option<PlainZone>
        requires may { CanObserve self.now answer.now }
        requires read { point.now ≡ slice_index_or self.now.points answer.now.point point.now }
        ensures { IfSome result (IsOfPoint answer.now self.now) }
    {
        let zone = &self.zones[point.zone as usize];
        if !zone.is_plain() {
            return None;
        }
        let off = is_on(&zone.off, answer.stamp);
        let test = is_on(&zone.test, answer.stamp);
        let reset = self.reset.before(answer.stamp);
        let moved = zone.moved.before(answer.stamp);
        let settled = zone.is_settled(&self.reset, answer.stamp);
        Some(PlainZone {
            zone: point.zone,
            number: zone.number,
            blocked: off | test,
            floor: Tick(reset.0.max(moved.0)),
            settled,
        })
    }

    // Takes an alarm of a point in such a zone.
    #[inline(always)]
    fn take_plain(&mut self, answer: &Answer, zone: &PlainZone) -> Finding
        requires can { CanTake self.old (answer.now ∷ []) }
        requires alarm { is_alarm answer.now.heard ≡ true }
        requires zone { IsOfPoint answer.now self.old zone.now }
        ensures taken { TakesAnswers self.old (answer.now ∷ []) self.new }
        ensures found { FindsNext self.old answer.now result }
        ensures others { KeepsOthers answer.now.point self.old self.new }
        ensures known { IsKnown answer.now.stamp.0 self.new zone.now }
    {
        let point = self.points.at(answer.point as usize);
        let manual = point.manual;
        let judgement = self.judge_in(answer, point, zone);
        self.note_in(answer, &judgement, zone);
        let told = one_bit(zone.number, judgement.counted);
        let called = one_bit(zone.number, judgement.counted & manual);
        Finding {
            stamp: answer.stamp,
            point: answer.point,
            counted: told,
            confirmed: told,
            manual: called,
            released: told,
            missing: false,
        }
    }

    // Takes note of such an alarm, of which this is said. Where its run goes on, it may do so from now on.
    #[inline(always)]
    pub(crate) fn note_in(&mut self, answer: &Answer, judgement: &Judgement, zone: &PlainZone)
        requires can { CanTake self.old (answer.now ∷ []) }
        requires zone { IsOfPoint answer.now self.old zone.now }
        ensures taken { TakesJudged self.old answer.now judgement.now self.new }
        ensures others { KeepsOthers answer.now.point self.old self.new }
        ensures known { KeepsKnown self.old self.new }
    {
        if self.goes_on(answer, judgement) {
            return self.mark_going_on(answer, zone);
        }
        self.note_alarm(answer, judgement)
    }

    // Whether an alarm leaves what is kept of its point as it is.
    #[inline(always)]
    fn goes_on(&self, answer: &Answer, judgement: &Judgement) -> bool
        requires { CanTake self.now (answer.now ∷ []) }
        ensures { result ≡ true → RunGoesOn answer.now judgement.now self.now }
    {
        let point = self.points.at(answer.point as usize);
        point.stays_at(answer.heard, judgement.counted, judgement.floor)
    }

    // What the operations done before such an alarm say of it.
    pub(crate) fn judge_in(
        &self,
        answer: &Answer,
        point: &PointWatch,
        zone: &PlainZone,
    ) -> Judgement
        requires may { CanObserve self.now answer.now }
        requires read { point.now ≡ slice_index_or self.now.points answer.now.point point.now }
        requires alarm { is_alarm answer.now.heard ≡ true }
        requires zone { IsOfPoint answer.now self.now zone.now }
        ensures { TellsJudgement self.now answer.now result }
    {
        let off = is_on(&point.off, answer.stamp);
        Judgement {
            counted: !(off | zone.blocked),
            floor: zone.floor,
        }
    }
}
