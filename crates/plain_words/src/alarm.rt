//! Which zones are in alarm, in alarm by hand, released and in first state, by the answers.

ghost use Rattle.std.specs.Prelude.{◌≡◌};
ghost use Rattle.std.specs.List.{list_any};
ghost use Rattle.coincidence_rules.specs.Alarm.{is_by_hand as is_by_hand_by, is_in_alarm as is_in_alarm_by};
ghost use Rattle.coincidence_rules.specs.Alarm.{is_released as is_released_by};
ghost use Rattle.coincidence_rules.specs.First.{is_first as is_first_state_by, tells_first as tells_first_by};
ghost use Rattle.plain_words.specs.Judging.{judged, weighed};

use crate::counted::is_within;
use crate::evidence::Evidence;
use crate::places::{is_detector, is_of, rule_at};
use plain_history::{cancelled_before, floor_before};
use site_types::{Answer, Rule};
use tick_units::Tick;

impl Evidence<'_> {
    /// Whether a zone is in alarm at a tick: it was confirmed at a stamp after its floor.
    pub(crate) fn is_in_alarm(&self, zone: usize, tick: Tick) -> bool
        ensures { result ≡ judged is_in_alarm_by self.now zone tick.0 }
    {
        let floor = floor_before(self.settings.site, zone, tick, self.settings.done);
        self.answers.iter().any(|answer| floor.0 < answer.stamp.0 && self.confirms(zone, answer))
    }

    /// Whether a zone is in alarm by hand at a tick: a manual call point of it confirmed it after its floor.
    pub(crate) fn is_by_hand(&self, zone: usize, tick: Tick) -> bool
        ensures { result ≡ judged is_by_hand_by self.now zone tick.0 }
    {
        let floor = floor_before(self.settings.site, zone, tick, self.settings.done);
        self.answers.iter().any(|answer| floor.0 < answer.stamp.0 && self.calls(zone, answer))
    }

    /// Whether a zone is released at a tick: outputs may act for it, by an answer after its floor.
    pub(crate) fn is_released(&self, zone: usize, tick: Tick) -> bool
        ensures { result ≡ judged is_released_by self.now zone tick.0 }
    {
        let floor = floor_before(self.settings.site, zone, tick, self.settings.done);
        self.answers.iter().any(|answer| floor.0 < answer.stamp.0 && self.releases(zone, answer))
    }

    /// Whether a zone is in first state at a tick: it is of type B, not in alarm, and a detector of it told.
    pub(crate) fn is_first(&self, zone: usize, tick: Tick) -> bool
        ensures { result ≡ judged is_first_state_by self.now zone tick.0 }
    {
        match rule_at(self.settings.site, zone) {
            Some(Rule::B { within }) => {
                !self.is_in_alarm(zone, tick) && self.has_told(within, zone, tick)
            }
            _ => false,
        }
    }

    // Whether a detector of a zone told at most so many ticks before a tick.
    fn has_told(&self, within: u16, zone: usize, tick: Tick) -> bool
        ensures { result
            ≡ list_any (weighed tells_first_by self.now within zone tick.0) self.now.answers.now }
    {
        self.answers
            .iter()
            .any(|answer| self.tells_first(within, zone, tick, answer))
    }

    fn tells_first(&self, within: u16, zone: usize, tick: Tick, answer: &Answer) -> bool
        ensures { result ≡ weighed tells_first_by self.now within zone tick.0 answer.now }
    {
        is_of(self.settings.site, zone, answer.point)
            && is_detector(self.settings.site, answer.point)
            && self.is_counted(answer)
            && floor_before(self.settings.site, zone, tick, self.settings.done).0 < answer.stamp.0
            && cancelled_before(self.settings.site, zone, tick, self.settings.done).0
                < answer.stamp.0
            && is_within(answer.stamp, tick, within)
    }
}
