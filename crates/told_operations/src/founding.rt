//! Which answers of a text nobody may have given.

ghost use Rattle.std.specs.Prelude.{◌≡◌, ◌++◌, ◌∷◌, [], false, length, replicate, option_map, slice_get, IfOk, IsOk};
ghost use Rattle.face_text.specs.declared.step.Step.{Step as StepOf};
ghost use Rattle.std.specs.Prelude.{List};
ghost use Rattle.told_operations.specs.Doing.{asked_numbered};
ghost use Rattle.told_operations.specs.Founding.{FirstIsFound, TellsAnswered, allows, first_groundless};
ghost use Rattle.told_operations.specs.Founding.{has_groundless, lacks_ground};

use crate::asked_operation::AskedOperation;
use access_levels::allowed;
use face_text::{OpAnswer, Reply, Step};
use std::alloc::Global;
use tick_units::{NoMemory, Tick};

/// The tick of the first step with an answer that nobody may have given: to an operation that wasn't asked for by
/// then, or that an earlier step answers, or `done` against the level of its code.
///
/// # Errors
///
/// Where memory is refused.
pub fn first_unfounded(
    alloc: Global,
    asked: &[AskedOperation],
    steps: &[Step],
) -> Result<Option<Tick>, NoMemory>
    ensures { IfOk result (λ first. option_map (λ (tick : Tick). tick.0) first
        ≡ first_groundless asked.now [] steps.now) }
{
    let mut answered = none_answered(alloc, asked.len())?;
    for place in 0..steps.len() {
        let step = &steps[place];
        if is_groundless(asked, &answered, step) {
            return Ok(Some(step.tick));
        }
        note_answers(&mut answered, step.answers.ops.as_slice());
    }
    Ok(None)
}

/// What [`first_unfounded`] tells is what the rules of an audit ask for.
pub fn first_is_found()
    ensures { FirstIsFound }
{}

// So many marks, none of them set.
fn none_answered(alloc: Global, count: usize) -> Result<Vec<bool>, NoMemory>
    ensures { IfOk result (λ marks. marks.items ≡ replicate count false) }
{
    let mut marks = Vec::new(alloc);
    for _ in 0..count {
        marks.push(false)?;
    }
    Ok(marks)
}

// Whether a step has such an answer, where the marks tell what the steps before it answered.
fn is_groundless(asked: &[AskedOperation], answered: &[bool], step: &Step) -> bool
    requires { length answered.now ≡ length asked.now }
    ensures { (before : List StepOf) → TellsAnswered before answered.now
        → result ≡ has_groundless asked.now before step.now }
{
    let answers = step.answers.ops.as_slice();
    for place in 0..answers.len() {
        let answer = answers[place];
        if lacks(asked, answered, step.tick, answer) {
            return true;
        }
    }
    false
}

// Whether an answer of a tick is such a one.
fn lacks(asked: &[AskedOperation], answered: &[bool], tick: Tick, answer: OpAnswer) -> bool
    requires { length answered.now ≡ length asked.now }
    ensures { (before : List StepOf) → TellsAnswered before answered.now
        → result ≡ lacks_ground asked.now before tick.0 answer }
{
    if answer.number == 0 {
        return true;
    }
    let place = answer.number as usize - 1;
    match asked.get(place) {
        None => true,
        Some(asked) => answered[place] || !may_be(asked, tick, answer),
    }
}

// Whether an answer may be given in a tick to an operation that is asked for.
fn may_be(asked: &AskedOperation, tick: Tick, answer: OpAnswer) -> bool
    ensures { result ≡ allows tick.0 answer (Some asked.now) }
{
    asked.tick <= tick
        && (answer.reply != Reply::Done || allowed(&asked.operation, asked.level).is_ok())
}

// Marks what a step answers.
fn note_answers(answered: &mut [bool], answers: &[OpAnswer])
    ensures marked { (before : List StepOf) (step : StepOf) → step.answers.ops ≡ answers.now
        → TellsAnswered before answered.old → TellsAnswered (before ++ step ∷ []) answered.new }
    ensures size { length answered.new ≡ length answered.old }
{
    for place in 0..answers.len() {
        let number = answers[place].number;
        if number > 0 && number <= answered.len() as u64 {
            answered[number as usize - 1] = true;
        }
    }
}
