ghost use Rattle.std.specs.Prelude.{◌≡◌, ◌+◌, ◌<◌, ◌≤◌, ℕ};
ghost use Rattle.face_text.specs.declared.timeline.Timeline.{Timeline as TimelineOf};
ghost use Rattle.caused_zones.specs.Marks.{AreEachAfter};

use crate::fault_told::FaultTold;
use face_text::{Face, Step, Timeline};
use tick_units::Tick;

/// Until when the faces of each panel told a fault.
#[derive(Clone, Copy)]
pub struct ToldFaults {
    /// The place of the step that comes next.
    next: usize,
    /// By the panels' places.
    panels: [FaultTold; 8],
}

impl ToldFaults {
    ghost use Rattle.shown_causes.specs.Faults.{DoStepsRise, FaultsStand, TellsLastFault, shows_fault_at, told_after};

    /// At opening.
    pub fn new(timeline: &Timeline) -> ToldFaults
        ensures { DoStepsRise timeline.now.steps → FaultsStand timeline.now 0 result }
    {
        let mut faults = ToldFaults {
            next: 0,
            panels: [FaultTold {
                lasts: false,
                last: None,
            }; 8],
        };
        faults.take_faces(Tick(0), timeline.opened.as_slice());
        faults
    }

    /// Goes on to the next tick.
    pub fn take_tick(&mut self, now: Tick, timeline: &Timeline)
        ensures { (before : ℕ) → now.0 ≡ before + 1 → FaultsStand timeline.now before self.old
            → FaultsStand timeline.now now.0 self.new }
    {
        let steps = timeline.steps.as_slice();
        if self.next < steps.len() {
            let step = &steps[self.next];
            if step.tick.0 <= now.0 {
                self.take_faces(now, step.faces.as_slice());
                self.next += 1;
            }
        }
    }

    // Takes the faces after a tick.
    fn take_faces(&mut self, now: Tick, faces: &[Face])
        ensures panels { AreEachAfter
            (λ place told. told_after now.0 (shows_fault_at faces.now place) told)
            self.old.panels self.new.panels }
        ensures next { self.new.next ≡ self.old.next }
    {
        for place in 0..8 {
            self.panels[place] = self.panels[place].after(now.0, shows_fault(faces, place));
        }
    }

    /// The last tick by now at which a panel's face told a fault.
    pub fn last_of(&self, panel: u8, now: Tick) -> Option<u64>
        requires { (1 ≤ panel) × (panel ≤ 8) }
        ensures { TellsLastFault self.now panel now.0 result }
    {
        self.panels[panel as usize - 1].last_by(now.0)
    }
}

fn shows_fault(faces: &[Face], place: usize) -> bool
    ensures { result ≡ shows_fault_by faces.now place }
{
    match faces.get(place) {
        None => false,
        Some(face) => face.conditions().fault,
    }
}

ghost use Rattle.shown_causes.specs.Faults.{shows_fault_at as shows_fault_by};
