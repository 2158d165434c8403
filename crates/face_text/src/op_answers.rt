ghost use Rattle.std.specs.Prelude.{◌≡◌, ◌<◌, [], ◌∷◌, ◌++◌, length};

use crate::op_answer::OpAnswer;
use arrayvec::ArrayVec;
use std::marker::Model;

/// The most answers of a tick.
pub const MOST_ANSWERS: usize = 64;

/// The answers of a tick in the order of their numbers, at most 64. Contracts see the list of them.
#[derive(Drop)]
pub struct OpAnswers {
    items: ArrayVec<OpAnswer, 64>,
}

impl Model for OpAnswers {
    ghost use Rattle.std.specs.Prelude.{List};
    ghost use Rattle.face_text.specs.declared.op_answer.OpAnswer.{OpAnswer};

    ghost Value = { List OpAnswer };

    ghost view = { λ answers. answers.items.items };
}

impl OpAnswers {
    pub fn new() -> OpAnswers
        ensures { result ≡ [] }
    {
        OpAnswers {
            items: ArrayVec::new(),
        }
    }

    pub fn clear(&mut self)
        ensures { self.new ≡ [] }
    {
        self.items.clear();
    }

    pub fn push(&mut self, answer: OpAnswer)
        requires { length self.old < 64 }
        ensures { self.new ≡ self.old ++ answer ∷ [] }
    {
        self.items.push(answer);
    }

    pub fn as_slice(&self) -> &[OpAnswer]
        ensures { result.now ≡ self.now }
    {
        self.items.as_slice()
    }
}
