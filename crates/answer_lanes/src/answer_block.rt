ghost use Rattle.std.specs.Prelude.{◌≡◌};
ghost use Rattle.answer_lanes.specs.Blocks.{HasFirstAlone, block_answer_at, eight_of};

use crate::answer_group::AnswerGroup;
use crate::several::Several;
use site_types::Answer;
use tick_units::Tick;

/// The answers of four eights of points to one asking. The places of an eight's points follow one another.
#[derive(Clone, Copy, Debug, Default)]
pub struct AnswerBlock {
    /// The tick in which they were asked.
    pub stamp: Tick,
    /// The place of the first point of each eight.
    pub firsts: [u16; 4],
    /// Which of each eight are in alarm: bit k for the point k places behind its first one.
    pub alarms: [u8; 4],
    /// Which of the others are silent.
    pub silents: [u8; 4],
}

impl AnswerBlock {
    /// One of the four eights, counted from 0. There is none behind the fourth.
    pub fn eight(&self, number: u8) -> AnswerGroup
        ensures { result ≡ eight_of self.now number }
    {
        let place = number as usize;
        if place >= 4 {
            return AnswerGroup {
                stamp: self.stamp,
                ..AnswerGroup::default()
            };
        }
        AnswerGroup {
            stamp: self.stamp,
            point: self.firsts[place],
            alarms: self.alarms[place],
            silents: self.silents[place],
        }
    }
}

impl From<AnswerGroup> for AnswerBlock {
    /// The answers of one eight, the first one. The others have nothing.
    fn from(group: AnswerGroup) -> AnswerBlock
        ensures first { eight_of result 0 ≡ group }
        ensures others { HasFirstAlone result }
    {
        AnswerBlock {
            stamp: group.stamp,
            firsts: [group.point, 0, 0, 0],
            alarms: [group.alarms, 0, 0, 0],
            silents: [group.silents, 0, 0, 0],
        }
    }
}

impl Several for AnswerBlock {
    type Item = Answer;

    ghost item_at = { block_answer_at };

    fn item_at(&self, place: u8) -> Answer {
        self.eight(place / 8).item_at(place % 8)
    }

    fn one(item: Answer) -> AnswerBlock {
        AnswerBlock::from(AnswerGroup::one(item))
    }
}
