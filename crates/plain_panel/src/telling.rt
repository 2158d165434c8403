ghost use Rattle.std.specs.Prelude.{◌≡◌, ◌++◌, ◌∷◌, [], IfOk, OnOk};
ghost use Rattle.site_types.specs.Valid.{IsValid};
ghost use Rattle.panel_rules.specs.Moments.{tick_of};
ghost use Rattle.panel_rules.specs.Timeline.{faces_of, timeline_of};
ghost use Rattle.plain_history.specs.Histories.{history, moment_of};

use crate::coming::Coming;
use crate::faces_now::{are_same, faces_now};
use crate::keeping::Keeping;
use face_text::{Face, Step, Timeline};
use plain_history::{Moment, tick_after};
use plain_operations::{OpAnswered, answers_now, told};
use site_types::{Retained, Site};
use std::alloc::Global;
use tick_units::{Items, NoMemory, Tick};

/// The timeline of the moments of a run, the oldest of them first.
pub fn timeline(
    alloc: Global,
    site: &Site,
    kept: &Retained,
    moments: &[Moment],
) -> Result<Timeline, NoMemory>
    requires { IsValid site.now }
    ensures { IfOk result
        (λ timeline. timeline ≡ timeline_of site.now kept.now (history moments.now)) }
{
    let mut telling = Telling::new(alloc, site, kept)?;
    let opened = telling.opened(alloc, site, kept)?;
    for place in 0..moments.len() {
        let moment = moments[place];
        let coming = Coming {
            site,
            kept,
            before: &moments[..place],
            moment: &moment,
            with_it: &moments[..place + 1],
        };
        telling.step(alloc, &coming)?;
    }
    telling.close(alloc, site, kept, moments)?;
    let Telling { tick, steps, .. } = telling;
    Ok(Timeline {
        opened: Items::from_vec(opened),
        steps: Items::from_vec(steps),
        last: tick,
    })
}

/// What was told of a run so far, tick by tick.
#[derive(Drop)]
pub struct Telling {
    keeping: Keeping,
    /// The tick that began last.
    tick: Tick,
    /// Whether Keep's turn failed in it.
    failed: bool,
    /// The faces at the end of the tick before.
    faces: Vec<Face>,
    steps: Vec<Step>,
}

impl Telling {
    ghost use Rattle.plain_panel.specs.Timelines.{StandsForTelling};
    ghost use Rattle.panel_bridges.specs.ClosedSteps.{steps_upto};

    fn new(alloc: Global, site: &Site, kept: &Retained) -> Result<Telling, NoMemory>
        requires { IsValid site.now }
        ensures { IfOk result (λ telling. StandsForTelling site.now kept.now [] telling) }
    {
        Ok(Telling {
            keeping: Keeping::new(alloc, site, kept)?,
            tick: Tick(0),
            failed: false,
            faces: Vec::new(alloc),
            steps: Vec::new(alloc),
        })
    }

    // The faces before anything befell.
    fn opened(&self, alloc: Global, site: &Site, kept: &Retained) -> Result<Vec<Face>, NoMemory>
        requires valid { IsValid site.now }
        requires stands { StandsForTelling site.now kept.now [] self.now }
        ensures { IfOk result (λ faces. faces.items ≡ faces_of site.now kept.now []) }
    {
        faces_now(alloc, &self.keeping, site, kept, self.tick, &[])
    }

    // Takes one moment more.
    fn step(&mut self, alloc: Global, coming: &Coming) -> Result<(), NoMemory>
        requires valid { IsValid coming.now.site.now }
        requires stands { StandsForTelling coming.now.site.now coming.now.kept.now
            (history coming.now.before.now) self.old }
        requires all { coming.now.with_it.now
            ≡ coming.now.before.now ++ coming.now.moment.now ∷ [] }
        ensures { OnOk result (StandsForTelling coming.now.site.now coming.now.kept.now
            (moment_of coming.now.moment.now ∷ history coming.now.before.now) self.new) }
    {
        match *coming.moment {
            Moment::Began => {
                self.close(alloc, coming.site, coming.kept, coming.before)?;
                self.failed = false;
                self.advance(alloc, coming)
            }
            Moment::Kept { failed } => {
                self.failed = either(failed, self.failed);
                self.advance(alloc, coming)
            }
            Moment::Happened(_) => self.advance(alloc, coming),
            Moment::Turned { .. } => self.advance(alloc, coming),
        }
    }

    // What is kept takes the moment, and the tick is counted.
    fn advance(&mut self, alloc: Global, coming: &Coming) -> Result<(), NoMemory>
        requires valid { IsValid coming.now.site.now }
        requires stands { StandsForKeeping coming.now.site.now coming.now.kept.now
            (history coming.now.before.now) self.old.keeping }
        requires ticks { tick_of (history coming.now.before.now) ≡ self.old.tick.0 }
        requires all { coming.now.with_it.now
            ≡ coming.now.before.now ++ coming.now.moment.now ∷ [] }
        ensures stands { OnOk result (StandsForKeeping coming.now.site.now coming.now.kept.now
            (moment_of coming.now.moment.now ∷ history coming.now.before.now) self.new.keeping) }
        ensures ticks { OnOk result
            (tick_of (moment_of coming.now.moment.now ∷ history coming.now.before.now)
            ≡ self.new.tick.0) }
        ensures failed { self.new.failed ≡ self.old.failed }
        ensures faces { self.new.faces ≡ self.old.faces }
        ensures steps { self.new.steps ≡ self.old.steps }
    {
        self.keeping.step(alloc, self.tick, coming)?;
        self.tick = tick_after(self.tick, coming.moment)?;
        Ok(())
    }

    // The tick that began last ends: a step tells of it where a face changed or something was answered.
    fn close(
        &mut self,
        alloc: Global,
        site: &Site,
        kept: &Retained,
        before: &[Moment],
    ) -> Result<(), NoMemory>
        requires valid { IsValid site.now }
        requires stands { StandsForTelling site.now kept.now (history before.now) self.old }
        ensures steps { OnOk result
            (self.new.steps.items ≡ steps_upto site.now kept.now (history before.now)
            (tick_of (history before.now))) }
        ensures faces { OnOk result
            (self.new.faces.items ≡ faces_of site.now kept.now (history before.now)) }
        ensures keeping { self.new.keeping ≡ self.old.keeping }
        ensures tick { self.new.tick ≡ self.old.tick }
        ensures failed { self.new.failed ≡ self.old.failed }
    {
        let faces = faces_now(alloc, &self.keeping, site, kept, self.tick, before)?;
        let step = self.step_told(alloc, site, kept, before, &faces)?;
        push_some(&mut self.steps, step)?;
        self.faces = faces;
        Ok(())
    }

    // The step of the tick that began last, if it is told, with the faces after it.
    fn step_told(
        &self,
        alloc: Global,
        site: &Site,
        kept: &Retained,
        before: &[Moment],
        faces: &[Face],
    ) -> Result<Option<Step>, NoMemory>
        requires stands { StandsForTelling site.now kept.now (history before.now) self.now }
        requires faces { faces.now ≡ faces_of site.now kept.now (history before.now) }
        ensures { IfOk result (λ step. step ≡ step_closed site.now kept.now (history before.now)) }
    {
        let requests = self.keeping.desk.requests();
        let answers = self.keeping.desk.outcomes().answers.as_slice();
        let now = answers_now(alloc, requests, answers, self.tick)?;
        let now = now.as_slice();
        if is_told(self.tick, faces, self.faces.as_slice(), now, self.failed) {
            let step = made(alloc, self.tick, faces, now, self.failed)?;
            Ok(Some(step))
        } else {
            Ok(None)
        }
    }
}

ghost use Rattle.std.specs.Prelude.{◌==◌, ◌&&◌, ◌||◌, length, map, nat_le, not};
ghost use Rattle.std.specs.List.{cons_option};
ghost use Rattle.face_text.specs.Faces.{same_faces};
ghost use Rattle.plain_operations.specs.Desks.{answered_of};
ghost use Rattle.plain_panel.specs.Keepings.{StandsForKeeping};
ghost use Rattle.plain_panel.specs.Timelines.{step_with};
ghost use Rattle.panel_bridges.specs.ClosedSteps.{step_closed};

// Whether a tick is told: it was counted, and a face is not as it was or something was answered.
fn is_told(tick: Tick, faces: &[Face], last: &[Face], now: &[OpAnswered], failed: bool) -> bool
    ensures { result
        ≡ (nat_le 1 tick.0
        && (not (same_faces faces.now last.now) || (not (length now.now == 0) || failed))) }
{
    tick.0 >= 1 && (!are_same(faces, last) || !now.is_empty() || failed)
}

fn either(one: bool, other: bool) -> bool
    ensures { result ≡ (one || other) }
{
    one || other
}

// The step of a tick.
fn made(
    alloc: Global,
    tick: Tick,
    faces: &[Face],
    now: &[OpAnswered],
    failed: bool,
) -> Result<Step, NoMemory>
    ensures { IfOk result (λ step. step ≡ step_with tick faces.now (map answered_of now.now)
        failed) }
{
    let answers = told(now, failed)?;
    let faces = Vec::from_slice(alloc, faces)?;
    Ok(Step {
        tick,
        faces: Items::from_vec(faces),
        answers,
    })
}

// Puts a step behind the others, if there is one.
fn push_some(steps: &mut Vec<Step>, step: Option<Step>) -> Result<(), NoMemory>
    ensures { OnOk result (steps.new.items ≡ steps.old.items ++ cons_option step []) }
{
    match step {
        None => Ok(()),
        Some(step) => {
            steps.push(step)?;
            Ok(())
        }
    }
}
