//! The line of a journal that can't be used.

ghost use Rattle.std.specs.Prelude.{◌≡◌, ◌≢◌, ◌≤◌, ◌+◌, ◌++◌, codes, length};
ghost use Rattle.hex.specs.Hex.{encode_lower};
ghost use Rattle.journal_refusals.specs.JournalTexts.{damage_text, journal_status, journal_text, other_file_text};
ghost use Rattle.journal_refusals.specs.JournalTexts.{other_site_text};
ghost use Rattle.program_status.specs.Sayings.{Says};
ghost use Rattle.program_status.specs.Statuses.{BlamesWrites, number_of};

use arrayvec::ArrayVec;
use itoa::Buffer;
use panel_edges::Sink;
use program_status::{Outcome, Status, say};
use retained_journal::OpenRefusal;

/// Ends a command whose journal can't be used, with the line that says why.
pub fn stop_at_journal<K: Sink>(refusal: &OpenRefusal, out: &mut K) -> Outcome
    ensures says { Says (journal_status refusal.now) (journal_text refusal.now)
        (K.written out.old) (K.written out.new) result.status }
    ensures ticks { (result.ticks ≡ 0) × (result.store_failures ≡ 0) }
    ensures write { BlamesWrites result (K.write_faults out.old) (K.write_faults out.new) }
{
    let line = journal_line(refusal);
    say(line.as_slice(), status_of_journal(refusal), 0, out)
}

fn status_of_journal(refusal: &OpenRefusal) -> Status
    ensures status { result ≡ journal_status refusal.now }
    ensures says { number_of result ≢ number_of Status.WriteFault }
{
    match refusal {
        OpenRefusal::NotAJournal(_) | OpenRefusal::OtherSite { .. } | OpenRefusal::Damaged { .. } =>
            Status::BadJournal,
        OpenRefusal::DiskFault => Status::DiskFault,
    }
}

fn journal_line(refusal: &OpenRefusal) -> ArrayVec<u8, 192>
    ensures { result.items ≡ journal_text refusal.now }
{
    match *refusal {
        OpenRefusal::NotAJournal(mark) => other_file_line(mark),
        OpenRefusal::OtherSite { kept, given } => other_site_line(kept, given),
        OpenRefusal::Damaged { offset, byte } => damage_line(offset, byte),
        OpenRefusal::DiskFault => fixed_line(b"fault disk\n"),
    }
}

fn fixed_line(text: &[u8]) -> ArrayVec<u8, 192>
    requires { length text.now ≤ 16 }
    ensures { result.items ≡ text.now }
{
    let mut line = ArrayVec::new();
    push(&mut line, text);
    line
}

fn other_file_line(mark: [u8; 8]) -> ArrayVec<u8, 192>
    ensures { result.items ≡ other_file_text mark }
{
    let mut text = [0; 16];
    let _fits = hex::encode_to_slice(mark.as_slice(), &mut text);
    let mut line = ArrayVec::new();
    push(&mut line, b"refused journal 1 ");
    push(&mut line, &text);
    push(&mut line, b"\n");
    line
}

fn other_site_line(kept: [u8; 32], given: [u8; 32]) -> ArrayVec<u8, 192>
    ensures { result.items ≡ other_site_text kept given }
{
    let mut line = ArrayVec::new();
    push(&mut line, b"refused journal 2 ");
    push(&mut line, &digest_text(kept));
    push(&mut line, b" ");
    push(&mut line, &digest_text(given));
    push(&mut line, b"\n");
    line
}

fn digest_text(digest: [u8; 32]) -> [u8; 64]
    ensures { result ≡ encode_lower digest }
{
    let mut text = [0; 64];
    let _fits = hex::encode_to_slice(digest.as_slice(), &mut text);
    text
}

fn damage_line(offset: u64, byte: u8) -> ArrayVec<u8, 192>
    ensures { result.items ≡ damage_text offset byte }
{
    let mut digits = Buffer::new();
    let mut line = ArrayVec::new();
    push(&mut line, b"refused journal 3 ");
    push(&mut line, digits.format(offset).as_bytes());
    push(&mut line, b" ");
    push(&mut line, digits.format(byte).as_bytes());
    push(&mut line, b"\n");
    line
}

// Puts bytes behind a line that has room for them.
fn push(line: &mut ArrayVec<u8, 192>, bytes: &[u8])
    requires { length line.old.items + length bytes.now ≤ 192 }
    ensures text { line.new.items ≡ line.old.items ++ bytes.now }
    ensures room { length line.new.items ≡ length line.old.items + length bytes.now }
{
    let _fits = line.try_extend_from_slice(bytes);
}
