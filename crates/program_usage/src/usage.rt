//! The usage of the program.

ghost use Rattle.std.specs.Prelude.{◌≡◌, ◌≤◌};
ghost use Rattle.program_status.specs.Sayings.{Says};
ghost use Rattle.program_status.specs.Statuses.{BlamesWrites};
ghost use Rattle.program_usage.specs.Usage.{usage_line};

use panel_edges::Sink;
use program_status::{Outcome, Status, say};

/// The usage of the whole program.
const USAGE: &[u8] =
    b"usage: panel check SITE, run SITE JOURNAL, matrix SITE, drill SEED TICKS, serve SITE JOURNAL PORT COUNT, move OLD NEW JOURNAL TARGET, audit SITE RECORD TEXT, node SITE JOURNAL PANEL PORT COUNT, import SITE FILE REGISTER\n";

/// Ends a call whose words are no command's with the usage.
pub fn tell_usage<K: Sink>(out: &mut K) -> Outcome
    ensures says { Says Status.Usage usage_line (K.written out.old) (K.written out.new)
        result.status }
    ensures ticks { (result.ticks ≡ 0) × (result.store_failures ≡ 0) }
    ensures write { BlamesWrites result (K.write_faults out.old) (K.write_faults out.new) }
    ensures later { K.write_faults out.old ≤ K.write_faults out.new }
{
    say(USAGE, Status::Usage, 0, out)
}
