ghost use Rattle.std.specs.Prelude.{◌≡◌, ◌<◌, ◌++◌, [], ◌∷◌, length, true, if◌then◌else◌};
ghost use Rattle.operation_desk.specs.Ordered.{put_by_number};

use face_text::{OpAnswer, OpAnswers};

/// Puts an answer among others behind those of lower numbers.
pub(crate) fn put_answer(answers: &mut OpAnswers, answer: OpAnswer)
    requires { length answers.old < 64 }
    ensures { answers.new ≡ put_by_number answer answers.old }
{
    let mut ordered = OpAnswers::new();
    for other in answers.as_slice() {
        push_if(&mut ordered, other, other.number < answer.number);
    }
    ordered.push(answer);
    for other in answers.as_slice() {
        push_if(&mut ordered, other, !(other.number < answer.number));
    }
    *answers = ordered;
}

fn push_if(answers: &mut OpAnswers, answer: &OpAnswer, wanted: bool)
    requires { wanted ≡ true → length answers.old < 64 }
    ensures { answers.new ≡ (if wanted then answers.old ++ answer.now ∷ [] else answers.old) }
{
    if wanted {
        answers.push(*answer);
    }
}
