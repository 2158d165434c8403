//! The command `drill`.

ghost use Rattle.std.specs.Prelude.{◌≡◌, ◌≢◌, ◌≤◌, IfOk};
ghost use Rattle.panel_drill.specs.Running.{most_ticks};
ghost use Rattle.panel_program.specs.Commands.{Drills, IsDrillLine};
ghost use Rattle.program_status.specs.Statuses.{BlamesWrites, IsSilentWithoutMemory, number_of};

use arrayvec::ArrayString;
use drill_site::drill_file;
use panel_drill::drill;
use panel_edges::Sink;
use program_status::{Outcome, Status, say};
use site_commands::{Loaded, read_file};
use std::alloc::Global;
use tick_units::NoMemory;

/// Runs a drill and tells its line. No clause says that the site file of a drill is accepted: were it refused, it would
/// be as if memory had run out.
pub fn run_drill<K: Sink>(alloc: Global, seed: u64, ticks: u64, out: &mut K) -> Outcome
    requires { ticks ≤ most_ticks }
    ensures drills { Drills seed ticks (K.written out.old) (K.written out.new) result }
    ensures read { result.status ≢ number_of Status.ReadFault }
    ensures write { BlamesWrites result (K.write_faults out.old) (K.write_faults out.new) }
    ensures memory { IsSilentWithoutMemory result (K.written out.old) (K.written out.new) }
    ensures disk { result.status ≢ number_of Status.DiskFault }
    ensures store { result.store_failures ≡ 0 }
{
    match drilled(alloc, seed, ticks) {
        Ok(line) => say(line.as_str().as_bytes(), Status::Done, ticks, out),
        Err(NoMemory) => Outcome::after(Status::NoMemory, 0),
    }
}

// The line of a drill.
fn drilled(alloc: Global, seed: u64, ticks: u64) -> Result<ArrayString<192>, NoMemory>
    requires { ticks ≤ most_ticks }
    ensures { IfOk result (λ line. IsDrillLine seed ticks line.bytes) }
{
    let file = drill_file(alloc)?;
    match read_file(alloc, file.as_slice()) {
        Ok(loaded) => {
            let Loaded { site, plan, digest } = loaded;
            drill(alloc, site, plan, digest, seed, ticks)
        }
        Err(_) => Err(NoMemory),
    }
}
