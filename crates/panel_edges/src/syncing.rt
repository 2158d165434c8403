ghost use Rattle.std.specs.Prelude.{◌+◌, ◌≤◌, length, IfSome, OnErr, OnOk, ◌↔◌};
ghost use Rattle.panel_edges.specs.Crashes.{After, ElapsesIn, Follows, Only};
ghost use Rattle.panel_edges.specs.Disks.{Becomes, Holds, Torn};
ghost use Rattle.panel_edges.specs.Faults.{HasCause};
ghost use Rattle.panel_edges.specs.Limits.{most_disk_bytes};

use crate::disks::Disk;
use crate::failed::Failed;

/// Writes and syncs. Where both succeed the bytes stand in each image. Else each image is one of before with
/// any bytes in the range.
///
/// # Errors
///
/// At the first of the two calls that fails.
pub fn write_synced<D: Disk>(disk: &mut D, at: u64, bytes: &[u8]) -> Result<(), Failed>
    requires { at + length bytes.now ≤ most_disk_bytes }
    ensures ok { OnOk result (Becomes (Holds at bytes.now) (D.seen disk.old) (D.seen disk.new)) }
    ensures err { OnErr result
        (Becomes (Torn at (length bytes.now)) (D.seen disk.old) (D.seen disk.new)) }
    ensures honest { D.honest disk.new ↔ D.honest disk.old }
    ensures stands { D.honest disk.old
        → OnOk result (Follows (Holds at bytes.now) (D.images disk.old) (D.images disk.new)) }
    ensures durable { D.honest disk.old
        → OnOk result (IfSome (D.seen disk.new) (λ file. Only file (D.images disk.new))) }
    ensures crash { D.honest disk.old
        → Follows (Torn at (length bytes.now)) (D.images disk.old) (D.images disk.new) }
    ensures time { D.honest disk.old
        → ElapsesIn D.moment D.left_since disk.old disk.new
        (After (Torn at (length bytes.now)) (D.images disk.old)) }
    ensures cause { HasCause (D.faults disk.old) (D.faults disk.new) result }
{
    disk.write_at(at, bytes)?;
    disk.sync()
}
