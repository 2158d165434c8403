//! The clauses on the fire alarm condition and its counter.

use crate::run::Run;
use crate::tally::Tally;
use site_types::Operation;

/// Notes which panels were in fire at the end of each tick, and what their counters told.
pub(crate) fn note_counters(run: &Run, tally: &mut Tally) {
    for now in 1..=run.last {
        for before in 0..run.site.panels {
            let panel = before.saturating_add(1);
            let face = run.face(now, panel);
            if face.conditions().fire {
                tally.note("fire is counted", true);
            }
            let cleared = last_clear(run, panel, now);
            let earlier = run.face(now.saturating_sub(1), panel).counter;
            if cleared == 0 && face.counter > 0 {
                tally.note("counter adds up", face.counter >= earlier);
            }
            if cleared > 0 {
                let is_kept = now > cleared && face.counter >= earlier || face.counter == 0;
                tally.note("cleared counter adds up", is_kept);
            }
        }
    }
}

// The last tick up to one in which a panel's counter was cleared; 0 for none.
fn last_clear(run: &Run, panel: u8, now: u64) -> u64 {
    let mut cleared: u64 = 0;
    for done in &run.done {
        if done.panel == panel && done.operation == Operation::Clear && done.tick.0 <= now {
            cleared = done.tick.0;
        }
    }
    cleared
}
