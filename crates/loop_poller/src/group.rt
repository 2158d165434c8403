ghost use Rattle.std.specs.Prelude.{◌≡◌, ◌≤◌, ◌+◌, ℕ};
ghost use Rattle.tick_units.specs.Lane.{HasRoom, with_put};

use crate::point_states::PointStates;
use answer_lanes::{AnswerBlock, AnswerGroup, Lane, Run};
use tick_units::Tick;

/// The points at eight addresses of a loop, which follow one another in the site.
#[derive(Clone, Copy)]
pub struct Group {
    /// The place of the first one.
    pub first: u16,
    pub count: u8,
    ghost few: { count ≤ 8 },
}

impl Group {
    ghost use Rattle.loop_poller.specs.Groups.{IsWithin, group_answers};

    /// Puts the answers of its points, all of which are reached, where the site's points are in these states.
    pub fn put_answers(&self, states: &PointStates, now: Tick, answers: &mut Lane<AnswerBlock>)
        requires { HasRoom answers.old 8 }
        ensures room { (n : ℕ) → HasRoom answers.old (n + 8) → HasRoom answers.new n }
        ensures put { IsWithin self.now states.now
            → answers.new ≡ with_put answers.old (group_answers now.0 self.now states.now) }
    {
        // A group that begins behind the last point has none.
        if self.first as usize >= states.len() {
            return;
        }
        answers.put_run(Run {
            first: AnswerBlock::from(AnswerGroup {
                stamp: now,
                point: self.first,
                alarms: states.alarms_from(self.first),
                silents: states.gone_from(self.first),
            }),
            taken: 0,
            count: self.count,
        });
    }
}
