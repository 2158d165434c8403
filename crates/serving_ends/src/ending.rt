//! The end of serving.

ghost use Rattle.std.specs.Prelude.{◌≡◌, ◌≢◌, true};
ghost use Rattle.program_status.specs.Statuses.{BlamesWrites, number_of};
ghost use Rattle.serving_ends.specs.Ends.{SaysEnd};

use crate::lines::served_line;
use crate::serving_end::ServingEnd;
use panel_edges::Sink;
use program_status::{Outcome, Status, say};

/// Writes the last line of serving, after so many ticks, of which so many couldn't be kept.
pub fn tell_end<K: Sink>(end: ServingEnd, ticks: u64, store_failures: u64, out: &mut K) -> Outcome
    ensures says { SaysEnd end (K.written out.old) (K.written out.new) result.status }
    ensures ticks { (result.ticks ≡ ticks) × (result.store_failures ≡ store_failures) }
    ensures write { BlamesWrites result (K.write_faults out.old) (K.write_faults out.new) }
    ensures door { result.status ≡ number_of Status.DoorFault → end.failed ≡ true }
    ensures read { result.status ≢ number_of Status.ReadFault }
    ensures memory { result.status ≢ number_of Status.NoMemory }
    ensures disk { result.status ≢ number_of Status.DiskFault }
{
    let outcome = if end.failed {
        say(b"fault door\n", Status::DoorFault, ticks, out)
    } else {
        let line = served_line(end.served);
        say(line.as_str().as_bytes(), Status::Done, ticks, out)
    };
    Outcome {
        store_failures,
        ..outcome
    }
}
