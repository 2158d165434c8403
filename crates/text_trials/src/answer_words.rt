//! Answers in words, as their lines have them, with commas between.

use face_text::{Answers, MOST_ANSWERS, OpAnswer, OpAnswers, Reply};

/// The answers of a tick that a text spells.
pub(crate) fn answers_of(text: &str) -> Option<Answers> {
    let mut answers = Answers {
        ops: OpAnswers::new(),
        busy: [0; 8],
        failed: false,
    };
    for part in text.split(", ") {
        if part == "store failed" {
            answers.failed = true;
        } else if let Some(answer) = part.strip_prefix("op ") {
            push_op(&mut answers.ops, answer)?;
        } else {
            set_busy(&mut answers.busy, part)?;
        }
    }
    Some(answers)
}

fn set_busy(busy: &mut [u64; 8], text: &str) -> Option<()> {
    let (panel, count) = text.split_once(" busy ")?;
    let panel: usize = panel.parse().ok()?;
    *busy.get_mut(panel.wrapping_sub(1))? = count.parse().ok()?;
    Some(())
}

fn push_op(ops: &mut OpAnswers, text: &str) -> Option<()> {
    let (number, reply) = text.split_once(' ')?;
    if ops.as_slice().len() >= MOST_ANSWERS {
        return None;
    }
    ops.push(OpAnswer {
        number: number.parse().ok()?,
        reply: reply_of(reply)?,
    });
    Some(())
}

fn reply_of(text: &str) -> Option<Reply> {
    match text {
        "done" => Some(Reply::Done),
        "waiting" => Some(Reply::Waiting),
        "already" => Some(Reply::Already),
        "store" => Some(Reply::Store),
        _ => {
            let (needs, has) = text.strip_prefix("denied needs ")?.split_once(" has ")?;
            Some(Reply::Denied {
                needs: needs.parse().ok()?,
                has: has.parse().ok()?,
            })
        }
    }
}
