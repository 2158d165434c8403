ghost use Rattle.std.specs.Prelude.{◌≡◌, ◌+◌, ◌<◌, ℕ};
ghost use Rattle.answer_lanes.specs.Points.{answer_at, heard_at};
ghost use Rattle.coincidence_rules.specs.Counted.{is_silent};
ghost use Rattle.site_types.specs.Bits.{has_bit};

use crate::mask_bits::{bits_within, has_place, without};
use crate::several::Several;
use site_types::{Answer, Heard};
use tick_units::Tick;

/// The answers of points whose places follow one another, to one asking. Those past the eighth are quiet.
#[derive(Clone, Copy, Debug, Default)]
pub struct AnswerGroup {
    /// The tick in which they were asked.
    pub stamp: Tick,
    /// The place of the first one.
    pub point: u16,
    /// Which of them are in alarm: bit k for the point k places behind the first one.
    pub alarms: u8,
    /// Which of the others are silent.
    pub silents: u8,
}

impl AnswerGroup {
    ghost use Rattle.answer_lanes.specs.Groups.{AreMatching};

    /// Which of the answers are silent, a bit for each.
    pub fn silent_bits(&self) -> u8
        ensures { (k : ℕ) → has_bit result k
            ≡ is_silent (heard_at self.now.alarms self.now.silents k) }
    {
        without(self.silents, self.alarms)
    }

    /// Which of eight answers, from the one at a place on, are alarms, a bit for each.
    pub fn alarms_from(&self, from: u8) -> u8
        ensures { (k : ℕ) → k < 8 → has_bit result k ≡ has_bit self.now.alarms (from + k) }
    {
        bits_within(self.alarms, from, 8)
    }

    /// Which of eight answers, from the one at a place on, are quiet where the first bits say so, or silent where the
    /// others do: just those.
    pub fn matching_bits(&self, from: u8, quiet: u8, silent: u8) -> u8
        ensures { AreMatching self.now from quiet silent result }
    {
        let alarms = bits_within(self.alarms, from, 8);
        let silents = bits_within(self.silents, from, 8);
        without(without(quiet, silents) | (silent & silents), alarms)
    }
}

impl Several for AnswerGroup {
    type Item = Answer;

    ghost item_at = { answer_at };

    fn item_at(&self, place: u8) -> Answer {
        Answer {
            stamp: self.stamp,
            point: self.point.saturating_add(place as u16),
            heard: heard_from(self.alarms, self.silents, place),
        }
    }

    fn one(item: Answer) -> AnswerGroup {
        AnswerGroup {
            stamp: item.stamp,
            point: item.point,
            alarms: matches!(item.heard, Heard::Alarm) as u8,
            silents: matches!(item.heard, Heard::Silent) as u8,
        }
    }
}

// What is heard of the point at a place, where these masks tell which are in alarm and which are silent.
fn heard_from(alarms: u8, silents: u8, place: u8) -> Heard
    ensures { result ≡ heard_at alarms silents place }
{
    if has_place(alarms, place) {
        Heard::Alarm
    } else if has_place(silents, place) {
        Heard::Silent
    } else {
        Heard::Quiet
    }
}
