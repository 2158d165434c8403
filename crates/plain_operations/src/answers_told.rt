//! The answers of a tick as a step of the timeline tells them.

ghost use Rattle.std.specs.Prelude.{◌≡◌, map, IfOk};
ghost use Rattle.panel_rules.specs.Timeline.{told as told_by};
ghost use Rattle.plain_operations.specs.Desks.{all_answered, answered_of};

use crate::op_answered::OpAnswered;
use crate::reply::Reply;
use crate::request::Request;
use face_text::{Answers, OpAnswer, OpAnswers, Reply as ToldReply};
use std::alloc::Global;
use tick_units::{NoMemory, Tick};

/// The answers that are given in a tick, by the numbers of the requests; requests and answers stand oldest first.
pub fn answers_now(
    alloc: Global,
    requests: &[Request],
    answers: &[OpAnswered],
    tick: Tick,
) -> Result<Vec<OpAnswered>, NoMemory>
    ensures { IfOk result (λ now. AreGivenIn tick.0 requests.now answers.now now.items) }
{
    let mut now = Vec::new(alloc);
    for request in requests {
        match last_answer(request, answers, tick) {
            None => {}
            Some(answered) => now.push(answered)?,
        }
    }
    Ok(now)
}

/// The answers of a tick as they are told, and whether Keep's turn failed. For more than 64 answers told by
/// their number it says that memory is wanted. No run has more: they were taken in the tick or the one
/// before, four of a panel in each.
pub fn told(now: &[OpAnswered], failed: bool) -> Result<Answers, NoMemory>
    ensures { IfOk result (λ answers. answers ≡ told_by (map answered_of now.now) failed) }
{
    let mut ops = OpAnswers::new();
    for answered in now {
        match told_answer(answered) {
            None => {}
            Some(answer) => {
                if ops.as_slice().len() >= 64 {
                    return Err(NoMemory);
                }
                ops.push(answer);
            }
        }
    }
    let busy = [
        busy_count(1, now),
        busy_count(2, now),
        busy_count(3, now),
        busy_count(4, now),
        busy_count(5, now),
        busy_count(6, now),
        busy_count(7, now),
        busy_count(8, now),
    ];
    Ok(Answers { ops, busy, failed })
}

ghost use Rattle.std.specs.Prelude.{◌==◌, ◌&&◌, ◌+◌, ◌<◌, ◌^◌, Some, if◌then◌else◌, option_map};
ghost use Rattle.panel_rules.specs.Timeline.{busy_count as busy_count_of, is_busy as is_busy_reply};
ghost use Rattle.panel_rules.specs.Timeline.{told_answer as told_answer_of, told_reply as told_reply_of};
ghost use Rattle.plain_operations.specs.Desks.{reply_of, request_of};
ghost use Rattle.plain_operations.specs.Tellings.{AreGivenIn, answer_given, answers_in};

// The last answer to a request that was given in a tick.
fn last_answer(request: &Request, answers: &[OpAnswered], tick: Tick) -> Option<OpAnswered>
    ensures { option_map answered_of result ≡ answer_given tick.0 (all_answered answers.now)
        (request_of request.now) }
{
    let mut found = None;
    for answered in answers {
        found = found_after(request, tick, answered, found);
    }
    found
}

fn found_after(
    request: &Request,
    tick: Tick,
    answered: &OpAnswered,
    before: Option<OpAnswered>,
) -> Option<OpAnswered>
    ensures { option_map answered_of result
        ≡ (if answers_in tick.0 (request_of request.now) (answered_of answered.now)
        then Some (answered_of answered.now) else option_map answered_of before) }
{
    if answered.request.number == request.number && answered.tick.0 == tick.0 {
        Some(*answered)
    } else {
        before
    }
}

// An answer as it is told by its number.
fn told_answer(answered: &OpAnswered) -> Option<OpAnswer>
    ensures { result ≡ told_answer_of (answered_of answered.now) }
{
    match told_reply(answered.reply) {
        None => None,
        Some(reply) => Some(OpAnswer {
            number: answered.request.number,
            reply,
        }),
    }
}

fn told_reply(reply: Reply) -> Option<ToldReply>
    ensures { result ≡ told_reply_of (reply_of reply) }
{
    match reply {
        Reply::Busy => None,
        Reply::Denied { needs, has } => Some(ToldReply::Denied { needs, has }),
        Reply::Waiting => Some(ToldReply::Waiting),
        Reply::Already => Some(ToldReply::Already),
        Reply::Store => Some(ToldReply::Store),
        Reply::WasDone => Some(ToldReply::Done),
    }
}

// How many of some answers found a panel busy.
fn busy_count(panel: u8, now: &[OpAnswered]) -> u64
    ensures { result ≡ busy_count_of panel (map answered_of now.now) }
{
    let mut count = 0;
    for answered in now {
        count = count_after(panel, answered, count);
    }
    count
}

fn count_after(panel: u8, answered: &OpAnswered, before: u64) -> u64
    requires { before + 1 < 2 ^ 64 }
    ensures { result ≡ (if (answered.now.request.panel == panel)
        && is_busy_reply (reply_of answered.now.reply) then before + 1 else before) }
{
    if answered.request.panel == panel && is_busy(answered.reply) {
        before + 1
    } else {
        before
    }
}

fn is_busy(reply: Reply) -> bool
    ensures { result ≡ is_busy_reply (reply_of reply) }
{
    matches!(reply, Reply::Busy)
}
