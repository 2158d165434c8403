//! Writing a new journal file.

ghost use Rattle.std.specs.Prelude.{◌≡◌, ◌⊎◌, ◌+◌, ◌<◌, ◌≤◌, ℕ, List, length, slice_index, IfSome, OnOk, ◌↔◌};
ghost use Rattle.panel_edges.specs.Disks.{Becomes};
ghost use Rattle.panel_edges.specs.Faults.{HasCause};
ghost use Rattle.retained_journal.specs.Fields.{Agrees};
ghost use Rattle.retained_journal.specs.NewFiles.{BecomesNew, IsNewFile, OneNewFile};
ghost use Rattle.retained_journal.specs.Slots.{FitPoints};

use crate::fields::put;
use crate::front::Front;
use crate::layout::{DIGEST_PLACE, FILE_MARK, FIRST_SLOT, FRONT_BYTES};
use crate::slot_bytes::slot_bytes;
use panel_edges::{Disk, Failed, write_synced};
use site_types::Retained;

// The front of a new journal that holds a state.
fn new_front(digest: &[u8; 32], state: &Retained) -> Front
    requires { FitPoints state.now.points }
    ensures { IsNewFile digest.now state.now result }
{
    let mut front = [0; FRONT_BYTES];
    put(&mut front, 0, &FILE_MARK);
    put(&mut front, DIGEST_PLACE, digest);
    put(&mut front, FIRST_SLOT, &slot_bytes(1, state));
    front
}

// Makes a new journal of an empty file.
pub(crate) fn write_new<D: Disk>(
    disk: &mut D,
    digest: &[u8; 32],
    state: &Retained,
) -> Result<(), Failed>
    requires fits { FitPoints state.now.points }
    requires empty { D.honest disk.old →
        (file : List ℕ) → D.images disk.old file → length file ≡ 0 }
    requires told { IfSome (D.seen disk.old) (λ file. length file ≡ 0) }
    ensures made { OnOk result (
        Becomes (BecomesNew digest.now state.now) (D.seen disk.old) (D.seen disk.new)) }
    ensures ok { D.honest disk.old → OnOk result (
        (file : List ℕ) → D.images disk.new file → IsNewFile digest.now state.now file) }
    ensures honest { D.honest disk.new ↔ D.honest disk.old }
    ensures cause { HasCause (D.faults disk.old) (D.faults disk.new) result }
{
    write_synced(disk, 0, &new_front(digest, state))
}

/// There is one new file of a site and a state: what is said of it leaves no byte open.
pub fn one_new_file()
    ensures { OneNewFile }
{}
