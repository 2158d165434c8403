//! Ending a command with a text.

ghost use Rattle.std.specs.Prelude.{◌≡◌, ◌≢◌, ◌≤◌};
ghost use Rattle.program_status.specs.Statuses.{BlamesWrites, number_of};
ghost use Rattle.program_status.specs.Sayings.{Says};

use crate::outcome::Outcome;
use crate::status::Status;
use panel_edges::{Failed, Sink, write_all};

/// Writes a text and ends with a status, or with that of a write fault.
pub fn say<K: Sink>(text: &[u8], status: Status, ticks: u64, out: &mut K) -> Outcome
    requires { number_of status ≢ number_of Status.WriteFault }
    ensures says { Says status text.now (K.written out.old) (K.written out.new) result.status }
    ensures ticks { (result.ticks ≡ ticks) × (result.store_failures ≡ 0) }
    ensures write { BlamesWrites result (K.write_faults out.old) (K.write_faults out.new) }
    ensures later { K.write_faults out.old ≤ K.write_faults out.new }
{
    match write_all(out, text) {
        Ok(()) => Outcome::after(status, ticks),
        Err(Failed) => Outcome::after(Status::WriteFault, ticks),
    }
}
