//! Which answers count, and which others stand beside an answer.

ghost use Rattle.std.specs.Prelude.{◌≡◌, ◌+◌, nat_le};
ghost use Rattle.coincidence_rules.specs.Counted.{is_alarm as is_alarm_heard, is_counted as is_counted_by};
ghost use Rattle.coincidence_rules.specs.Confirmed.{is_between as is_between_stamps};
ghost use Rattle.coincidence_rules.specs.Confirmed.{is_first_of_run as is_first_of_run_by, is_near as is_near_by};
ghost use Rattle.coincidence_rules.specs.Confirmed.{is_second as is_second_by, is_uncancelled as is_uncancelled_by};
ghost use Rattle.plain_words.specs.Judging.{weighed};

use crate::evidence::Evidence;
use crate::places::{is_detector, is_of};
use plain_history::{cancelled_before, floor_before};
use site_types::{Answer, Heard};
use tick_units::Tick;

impl Evidence<'_> {
    /// Whether an answer counts.
    pub(crate) fn is_counted(&self, answer: &Answer) -> bool
        ensures { result ≡ weighed is_counted_by self.now answer.now }
    {
        is_alarm(answer.heard)
            && !self
                .settings
                .is_blocked(answer.point as usize, answer.stamp)
    }

    /// Whether the other answer is of another point of the zone, counts, was not given later and lies after each
    /// floor that came before the answer.
    pub(crate) fn is_second(&self, zone: usize, answer: &Answer, other: &Answer) -> bool
        ensures { result ≡ weighed is_second_by self.now zone answer.now other.now }
    {
        is_of(self.settings.site, zone, other.point)
            && self.is_counted(other)
            && other.point != answer.point
            && floor_before(self.settings.site, zone, answer.stamp, self.settings.done).0
                < other.stamp.0
            && other.stamp.0 <= answer.stamp.0
    }

    /// Whether the other answer is such a second one of a detector, at most so many ticks before the answer.
    pub(crate) fn is_near(&self, within: u16, zone: usize, answer: &Answer, other: &Answer) -> bool
        ensures { result ≡ weighed is_near_by self.now within zone answer.now other.now }
    {
        self.is_second(zone, answer, other)
            && is_detector(self.settings.site, other.point)
            && is_within(other.stamp, answer.stamp, within)
    }

    /// Whether the other answer is such a second one and lies after each cancelling of the zone that came before the
    /// answer.
    pub(crate) fn is_uncancelled(
        &self,
        within: u16,
        zone: usize,
        answer: &Answer,
        other: &Answer,
    ) -> bool
        ensures { result ≡ weighed is_uncancelled_by self.now within zone answer.now other.now }
    {
        self.is_near(within, zone, answer, other)
            && cancelled_before(self.settings.site, zone, answer.stamp, self.settings.done).0
                < other.stamp.0
    }

    /// Whether a first answer counts, is of the same point, after the zone's floor before the answer and at least
    /// so many ticks before it.
    pub(crate) fn is_first_of_run(
        &self,
        verify: u16,
        zone: usize,
        answer: &Answer,
        first: &Answer,
    ) -> bool
        ensures { result ≡ weighed is_first_of_run_by self.now verify zone answer.now first.now }
    {
        first.point == answer.point
            && self.is_counted(first)
            && floor_before(self.settings.site, zone, answer.stamp, self.settings.done).0
                < first.stamp.0
            && has_passed(first.stamp, verify, answer.stamp)
    }
}

fn is_alarm(heard: Heard) -> bool
    ensures { result ≡ is_alarm_heard heard }
{
    matches!(heard, Heard::Alarm)
}

/// Whether the answer is of the point, and given from one stamp to another.
pub(crate) fn is_between(point: u16, first: Tick, last: Tick, answer: &Answer) -> bool
    ensures { result ≡ is_between_stamps point first.0 last.0 answer.now }
{
    answer.point == point && first.0 <= answer.stamp.0 && answer.stamp.0 <= last.0
}

/// Whether a tick is at most so many ticks after another.
pub(crate) fn is_within(first: Tick, last: Tick, within: u16) -> bool
    ensures { result ≡ nat_le last.0 (first.0 + within) }
{
    last.0.saturating_sub(first.0) <= within as u64
}

// Whether so many ticks lie between two.
fn has_passed(first: Tick, wait: u16, last: Tick) -> bool
    ensures { result ≡ nat_le (first.0 + wait) last.0 }
{
    first.0 <= last.0 && last.0 - first.0 >= wait as u64
}
