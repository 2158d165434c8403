ghost use Rattle.std.specs.Prelude.{◌≡◌, ◌+◌, ◌≤◌, List, ℕ, Option, Some, length, take, drop, IfOk, IfSome, OnErr};
ghost use Rattle.std.specs.Prelude.{OnOk, ◌↔◌};
ghost use Rattle.panel_edges.specs.Crashes.{Elapses, Follows, Only, Stays};
ghost use Rattle.panel_edges.specs.Disks.{Becomes, Holds, Torn};
ghost use Rattle.panel_edges.specs.Faults.{HasCause};
ghost use Rattle.panel_edges.specs.Limits.{most_disk_bytes};

use crate::failed::Failed;

/// One file of at most `MOST_DISK_BYTES` bytes that is written in place, and may be cut off at any moment.
///
/// What is said of a crash is said of an honest disk: one whose syncs do what they answer. Each call keeps honesty.
pub trait Disk {
    /// The bytes that a read gives, where the disk tells them.
    ghost seen: { Self → Option (List ℕ) };

    /// What is said of crashes holds.
    ghost honest: { Self → Type 0 };

    /// What a crash at this moment may leave: the images.
    ghost images: { Self → List ℕ → Type 0 };

    /// The moment, a number that never falls.
    ghost moment: { Self → ℕ };

    /// What a crash at some moment from that one on may have left, within a call too.
    ghost left_since: { Self → ℕ → List ℕ → Type 0 };

    /// How often a call has failed.
    ghost faults: { Self → ℕ };

    /// How many bytes the file has.
    fn len(&mut self) -> Result<u64, Failed>
        ensures ok { IfOk result (λ n. IfSome (seen self.old) (λ bytes. n ≡ length bytes)) }
        ensures seen { seen self.new ≡ seen self.old }
        ensures honest { honest self.new ↔ honest self.old }
        ensures crash { honest self.old → Stays (images self.old) (images self.new) }
        ensures time { honest self.old
            → Elapses (moment self.old) (moment self.new) (left_since self.old)
            (left_since self.new) (images self.new) }
        ensures cause { HasCause (faults self.old) (faults self.new) result };

    /// Fills `into` with the bytes from a place on. Past the end of a real file it fails.
    fn read_at(&mut self, at: u64, into: &mut [u8]) -> Result<(), Failed>
        requires { IfSome (seen self.old) (λ bytes. at + length into.old ≤ length bytes) }
        ensures ok { OnOk result
            (IfSome (seen self.old) (λ bytes. into.new ≡ take (length into.old) (drop at bytes))) }
        ensures seen { seen self.new ≡ seen self.old }
        ensures honest { honest self.new ↔ honest self.old }
        ensures crash { honest self.old → Stays (images self.old) (images self.new) }
        ensures time { honest self.old
            → Elapses (moment self.old) (moment self.new) (left_since self.old)
            (left_since self.new) (images self.new) }
        ensures cause { HasCause (faults self.old) (faults self.new) result };

    /// Writes over what is there, and past the end. Whether or not it fails, a crash may leave any bytes in its range
    /// until a sync succeeds.
    fn write_at(&mut self, at: u64, bytes: &[u8]) -> Result<(), Failed>
        requires { at + length bytes.now ≤ most_disk_bytes }
        ensures ok { OnOk result (Becomes (Holds at bytes.now) (seen self.old) (seen self.new)) }
        ensures err { OnErr result
            (Becomes (Torn at (length bytes.now)) (seen self.old) (seen self.new)) }
        ensures honest { honest self.new ↔ honest self.old }
        ensures crash { honest self.old
            → Follows (Torn at (length bytes.now)) (images self.old) (images self.new) }
        ensures time { honest self.old
            → Elapses (moment self.old) (moment self.new) (left_since self.old)
            (left_since self.new) (images self.new) }
        ensures cause { HasCause (faults self.old) (faults self.new) result };

    /// Makes what was written outlive a crash. Where it succeeds, a crash leaves what a read gives.
    fn sync(&mut self) -> Result<(), Failed>
        ensures seen { seen self.new ≡ seen self.old }
        ensures honest { honest self.new ↔ honest self.old }
        ensures durable { honest self.old
            → OnOk result (IfSome (seen self.new) (λ file. Only file (images self.new))) }
        ensures crash { honest self.old → Stays (images self.old) (images self.new) }
        ensures time { honest self.old
            → Elapses (moment self.old) (moment self.new) (left_since self.old)
            (left_since self.new) (images self.new) }
        ensures cause { HasCause (faults self.old) (faults self.new) result };

    /// An honest disk tells its bytes, which are one of its images.
    ghost reads_as_image: { (d : Self) → honest d → (file : List ℕ) × (seen d ≡ Some file) × images d file };

    /// Since this moment a crash may have left the images of this moment.
    ghost counts_now: { (d : Self) (t : ℕ) (c : List ℕ) → honest d → t ≤ moment d → images d c → left_since d t c };

    /// Since this moment a crash may have left nothing else.
    ghost only_now: { (d : Self) (c : List ℕ) → honest d → left_since d (moment d) c → images d c };
}
