//! The line of a file in which no journal is made.

ghost use Rattle.std.specs.Prelude.{◌≡◌, ◌≢◌, ◌++◌, codes};
ghost use Rattle.journal_refusals.specs.JournalTexts.{target_status, target_text};
ghost use Rattle.program_status.specs.Sayings.{Says};
ghost use Rattle.program_status.specs.Statuses.{BlamesWrites, number_of};

use arrayvec::ArrayString;
use itoa::Buffer;
use panel_edges::Sink;
use program_status::{Outcome, Status, say};
use retained_journal::CreateRefusal;

/// Ends a command that can't make a journal in a file, with the line that says why.
pub fn stop_at_target<K: Sink>(refusal: &CreateRefusal, out: &mut K) -> Outcome
    ensures says { Says (target_status refusal.now) (target_text refusal.now)
        (K.written out.old) (K.written out.new) result.status }
    ensures ticks { (result.ticks ≡ 0) × (result.store_failures ≡ 0) }
    ensures write { BlamesWrites result (K.write_faults out.old) (K.write_faults out.new) }
{
    let line = target_line(refusal);
    say(line.as_str().as_bytes(), status_of_target(refusal), 0, out)
}

fn status_of_target(refusal: &CreateRefusal) -> Status
    ensures status { result ≡ target_status refusal.now }
    ensures says { number_of result ≢ number_of Status.WriteFault }
{
    match refusal {
        CreateRefusal::NotEmpty { .. } => Status::BadJournal,
        CreateRefusal::DiskFault => Status::DiskFault,
    }
}

fn target_line(refusal: &CreateRefusal) -> ArrayString<64>
    ensures { result.bytes ≡ target_text refusal.now }
{
    match *refusal {
        CreateRefusal::NotEmpty { length } => length_line(length),
        CreateRefusal::DiskFault => fault_line(),
    }
}

fn fault_line() -> ArrayString<64>
    ensures { result.bytes ≡ codes "fault disk\n" }
{
    let mut line = ArrayString::new();
    line.push_str("fault disk\n");
    line
}

fn length_line(length: u64) -> ArrayString<64>
    ensures { result.bytes ≡ target_text (CreateRefusal.NotEmpty length) }
{
    let mut digits = Buffer::new();
    let mut line = ArrayString::new();
    line.push_str("refused target ");
    line.push_str(digits.format(length));
    line.push_str("\n");
    line
}
