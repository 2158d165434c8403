//! What the answers of a text say was done.

ghost use Rattle.std.specs.Prelude.{◌≡◌, ◌++◌, map, IfOk, OnOk};
ghost use Rattle.told_operations.specs.Doing.{done_by_answer, done_by_answers, done_in_steps};
ghost use Rattle.told_operations.specs.Doing.{DoneIsListed, told_list};
ghost use Rattle.blocked_points.specs.Operations.{as_done};

use crate::asked_operation::AskedOperation;
use blocked_points::DoneOperation;
use face_text::{OpAnswer, Reply, Step};
use std::alloc::Global;
use tick_units::{Items, NoMemory, Tick};

/// The operations that the answers of a text say were done, the oldest first. A number that nobody asked for does
/// nothing.
///
/// # Errors
///
/// Where memory is refused.
pub fn done_operations(
    alloc: Global,
    asked: &[AskedOperation],
    steps: &[Step],
) -> Result<Items<DoneOperation>, NoMemory>
    ensures { IfOk result (λ done. map as_done done ≡ done_in_steps asked.now steps.now) }
{
    let mut done = Vec::new(alloc);
    for place in 0..steps.len() {
        let step = &steps[place];
        keep_done(&mut done, asked, step.tick, step.answers.ops.as_slice())?;
    }
    Ok(Items::from_vec(done))
}

/// What an auditor takes for done is what [`done_operations`] lists.
pub fn done_is_listed()
    ensures { DoneIsListed }
{}

// Puts behind the rest what the answers of a tick say was done.
fn keep_done(
    done: &mut Vec<DoneOperation>,
    asked: &[AskedOperation],
    tick: Tick,
    answers: &[OpAnswer],
) -> Result<(), NoMemory>
    ensures { OnOk result (map as_done done.new.items
        ≡ map as_done done.old.items ++ done_by_answers asked.now tick.0 answers.now) }
{
    for place in 0..answers.len() {
        if let Some(told) = told_by(asked, tick, answers[place]) {
            done.push(told)?;
        }
    }
    Ok(())
}

// What an answer of a tick says was done.
fn told_by(asked: &[AskedOperation], tick: Tick, answer: OpAnswer) -> Option<DoneOperation>
    ensures { told_list result ≡ done_by_answer asked.now tick.0 answer }
{
    if answer.reply != Reply::Done || answer.number == 0 {
        return None;
    }
    let asked = asked.get(answer.number as usize - 1)?;
    Some(DoneOperation {
        tick,
        panel: asked.panel,
        operation: asked.operation,
    })
}
