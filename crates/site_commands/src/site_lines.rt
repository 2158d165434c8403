//! The line of a refused site.

ghost use Rattle.std.specs.Prelude.{◌≡◌, ◌≤◌, ◌+◌, ◌++◌, OnOk, OnErr, codes, decimal, length};
ghost use Rattle.std.specs.Fmt.{signed_decimal};
ghost use Rattle.panel_edges.specs.Contents.{Grows, GrowsByFront};
ghost use Rattle.panel_edges.specs.Faults.{HasCause};
ghost use Rattle.site_commands.specs.Refusals.{crossing_text, named_text, old_stop_text, range_text, refusal_status};
ghost use Rattle.site_commands.specs.Refusals.{refusal_text, stop_status, stop_text, stop_text_of};
ghost use Rattle.program_status.specs.Statuses.{BlamesWrites, number_of};
ghost use Rattle.program_status.specs.Sayings.{Says};

use crate::stop::Stop;
use arrayvec::ArrayString;
use itoa::Buffer;
use panel_edges::{Failed, Sink, write_all};
use program_status::{Outcome, Status};
use site_config::SiteRefusal;

/// Ends a command whose site isn't at hand, with the line that says why. Where memory ran out nothing is written.
pub fn stop_with<K: Sink>(stop: &Stop, out: &mut K) -> Outcome
    ensures says { Says (stop_status stop.now) (stop_text stop.now) (K.written out.old)
        (K.written out.new) result.status }
    ensures ticks { (result.ticks ≡ 0) × (result.store_failures ≡ 0) }
    ensures write { BlamesWrites result (K.write_faults out.old) (K.write_faults out.new) }
    ensures memory { stop_status stop.now ≡ Status.NoMemory
        → (result.status ≡ number_of Status.NoMemory) × (K.written out.new ≡ K.written out.old) }
{
    stop_naming("refused site", stop, out)
}

/// Ends a command whose old site, of two, isn't at hand, with the line that says why.
pub fn stop_with_old<K: Sink>(stop: &Stop, out: &mut K) -> Outcome
    ensures says { Says (stop_status stop.now) (old_stop_text stop.now) (K.written out.old)
        (K.written out.new) result.status }
    ensures ticks { (result.ticks ≡ 0) × (result.store_failures ≡ 0) }
    ensures write { BlamesWrites result (K.write_faults out.old) (K.write_faults out.new) }
    ensures memory { stop_status stop.now ≡ Status.NoMemory
        → (result.status ≡ number_of Status.NoMemory) × (K.written out.new ≡ K.written out.old) }
{
    stop_naming("refused old site", stop, out)
}

// Ends a command with the line of a refused site, which begins with these words.
fn stop_naming<K: Sink>(word: &str, stop: &Stop, out: &mut K) -> Outcome
    requires { length word.now ≤ 16 }
    ensures says { Says (stop_status stop.now) (stop_text_of word.now stop.now)
        (K.written out.old) (K.written out.new) result.status }
    ensures ticks { (result.ticks ≡ 0) × (result.store_failures ≡ 0) }
    ensures write { BlamesWrites result (K.write_faults out.old) (K.write_faults out.new) }
    ensures memory { stop_status stop.now ≡ Status.NoMemory
        → (result.status ≡ number_of Status.NoMemory) × (K.written out.new ≡ K.written out.old) }
{
    let status = status_of_stop(stop);
    if status == Status::NoMemory {
        return Outcome::after(Status::NoMemory, 0);
    }
    match write_stop(word, stop, out) {
        Ok(()) => Outcome::after(status, 0),
        Err(Failed) => Outcome::after(Status::WriteFault, 0),
    }
}

fn status_of_stop(stop: &Stop) -> Status
    ensures { result ≡ stop_status stop.now }
{
    match stop {
        Stop::Absent => Status::BadSite,
        Stop::Refused(refusal) => status_of_refusal(refusal),
        Stop::Cycle(_) => Status::BadSite,
        Stop::ReadFault => Status::ReadFault,
        Stop::NoMemory => Status::NoMemory,
    }
}

fn status_of_refusal(refusal: &SiteRefusal) -> Status
    ensures { result ≡ refusal_status refusal.now }
{
    match refusal {
        SiteRefusal::NoMemory => Status::NoMemory,
        SiteRefusal::NotToml
        | SiteRefusal::Missing(_)
        | SiteRefusal::WrongKind(_)
        | SiteRefusal::Unknown(_)
        | SiteRefusal::OutOfRange(_, _)
        | SiteRefusal::Twice(_)
        | SiteRefusal::NoSuch(_)
        | SiteRefusal::SectionCrossesZones { .. }
        | SiteRefusal::PartnerNotMutual(_)
        | SiteRefusal::TooLong => Status::BadSite,
    }
}

fn write_stop<K: Sink>(word: &str, stop: &Stop, out: &mut K) -> Result<(), Failed>
    requires { length word.now ≤ 16 }
    ensures ok { OnOk result
        (Grows (K.written out.old) (K.written out.new) (stop_text_of word.now stop.now)) }
    ensures err { OnErr result
        (GrowsByFront (K.written out.old) (K.written out.new) (stop_text_of word.now stop.now)) }
    ensures cause { HasCause (K.write_faults out.old) (K.write_faults out.new) result }
{
    match stop {
        Stop::Absent => write_number(word, " 0\n", out),
        Stop::Refused(refusal) => write_refusal(word, refusal, out),
        Stop::Cycle(names) => write_cycle(word, names.as_slice(), out),
        Stop::ReadFault => write_all(out, b"fault read\n"),
        Stop::NoMemory => Ok(()),
    }
}

fn write_refusal<K: Sink>(word: &str, refusal: &SiteRefusal, out: &mut K) -> Result<(), Failed>
    requires { length word.now ≤ 16 }
    ensures ok { OnOk result
        (Grows (K.written out.old) (K.written out.new) (refusal_text word.now refusal.now)) }
    ensures err { OnErr result
        (GrowsByFront (K.written out.old) (K.written out.new)
        (refusal_text word.now refusal.now)) }
    ensures cause { HasCause (K.write_faults out.old) (K.write_faults out.new) result }
{
    match refusal {
        SiteRefusal::NotToml => write_number(word, " 1\n", out),
        SiteRefusal::Missing(key) => write_key(word, " 2 ", key.as_str(), out),
        SiteRefusal::WrongKind(key) => write_key(word, " 3 ", key.as_str(), out),
        SiteRefusal::Unknown(key) => write_key(word, " 4 ", key.as_str(), out),
        SiteRefusal::OutOfRange(key, number) => write_range(word, key.as_str(), *number, out),
        SiteRefusal::Twice(name) => write_key(word, " 6 ", name.as_str(), out),
        SiteRefusal::NoSuch(name) => write_key(word, " 7 ", name.as_str(), out),
        SiteRefusal::SectionCrossesZones { panel, line, place } => {
            let text = crossing_line(word, *panel, *line, *place);
            write_all(out, text.as_str().as_bytes())
        }
        SiteRefusal::PartnerNotMutual(name) => write_key(word, " 9 ", name.as_str(), out),
        SiteRefusal::TooLong => write_number(word, " 10\n", out),
        SiteRefusal::NoMemory => Ok(()),
    }
}

// A line of the words and a number alone.
fn write_number<K: Sink>(word: &str, number: &str, out: &mut K) -> Result<(), Failed>
    requires { length word.now + length number.now ≤ 32 }
    ensures ok { OnOk result
        (Grows (K.written out.old) (K.written out.new) (word.now ++ number.now)) }
    ensures err { OnErr result
        (GrowsByFront (K.written out.old) (K.written out.new) (word.now ++ number.now)) }
    ensures cause { HasCause (K.write_faults out.old) (K.write_faults out.new) result }
{
    write_all(out, numbered(word, number).as_str().as_bytes())
}

// A line of the words, a number and a key or a name.
fn write_key<K: Sink>(word: &str, number: &str, name: &str, out: &mut K) -> Result<(), Failed>
    requires { length word.now + length number.now ≤ 32 }
    ensures ok { OnOk result (Grows (K.written out.old) (K.written out.new)
        (named_text (word.now ++ number.now) name.now (codes "\n"))) }
    ensures err { OnErr result (GrowsByFront (K.written out.old) (K.written out.new)
        (named_text (word.now ++ number.now) name.now (codes "\n"))) }
    ensures cause { HasCause (K.write_faults out.old) (K.write_faults out.new) result }
{
    write_named(numbered(word, number).as_str(), name, "\n", out)
}

// The words with the number of a refusal behind them.
fn numbered(word: &str, number: &str) -> ArrayString<32>
    requires { length word.now + length number.now ≤ 32 }
    ensures { result.bytes ≡ word.now ++ number.now }
{
    let mut text = ArrayString::new();
    text.push_str(word);
    text.push_str(number);
    text
}

// The words and what is told of a cycle behind them.
#[tactic(auto, using(panel_edges::proofs::Growing::grows_more, panel_edges::proofs::Growing::front_more, panel_edges::proofs::Growing::front_longer))]
fn write_cycle<K: Sink>(word: &str, cycle: &[u8], out: &mut K) -> Result<(), Failed>
    ensures ok { OnOk result
        (Grows (K.written out.old) (K.written out.new) (word.now ++ cycle.now)) }
    ensures err { OnErr result
        (GrowsByFront (K.written out.old) (K.written out.new) (word.now ++ cycle.now)) }
    ensures cause { HasCause (K.write_faults out.old) (K.write_faults out.new) result }
{
    write_all(out, word.as_bytes())?;
    write_all(out, cycle)
}

/// A line with a key or a name of any length in it.
#[tactic(auto, using(panel_edges::proofs::Growing::grows_more, panel_edges::proofs::Growing::front_more, panel_edges::proofs::Growing::front_longer))]
pub fn write_named<K: Sink>(word: &str, name: &str, detail: &str, out: &mut K) -> Result<(), Failed>
    ensures ok { OnOk result
        (Grows (K.written out.old) (K.written out.new) (named_text word.now name.now detail.now)) }
    ensures err { OnErr result
        (GrowsByFront (K.written out.old) (K.written out.new)
        (named_text word.now name.now detail.now)) }
    ensures cause { HasCause (K.write_faults out.old) (K.write_faults out.new) result }
{
    write_all(out, word.as_bytes())?;
    write_all(out, name.as_bytes())?;
    write_all(out, detail.as_bytes())
}

// A line with a key and a number behind it.
fn write_range<K: Sink>(word: &str, key: &str, number: i64, out: &mut K) -> Result<(), Failed>
    requires { length word.now ≤ 16 }
    ensures ok { OnOk result
        (Grows (K.written out.old) (K.written out.new) (range_text word.now key.now number)) }
    ensures err { OnErr result
        (GrowsByFront (K.written out.old) (K.written out.new)
        (range_text word.now key.now number)) }
    ensures cause { HasCause (K.write_faults out.old) (K.write_faults out.new) result }
{
    let detail = number_detail(number);
    write_named(numbered(word, " 5 ").as_str(), key, detail.as_str(), out)
}

fn number_detail(number: i64) -> ArrayString<64>
    ensures { result.bytes ≡ codes " " ++ signed_decimal number ++ codes "\n" }
{
    let mut digits = Buffer::new();
    let mut line = ArrayString::new();
    line.push_str(" ");
    line.push_str(digits.format(number));
    line.push_str("\n");
    line
}

fn crossing_line(word: &str, panel: u8, line: u8, place: u8) -> ArrayString<64>
    requires { length word.now ≤ 16 }
    ensures { result.bytes ≡ crossing_text word.now panel line place }
{
    let mut text = ArrayString::new();
    text.push_str(word);
    push_number(&mut text, " 8 ", panel);
    push_number(&mut text, " ", line);
    push_number(&mut text, " ", place);
    text.push_str("\n");
    text
}

// A word and a number behind it.
fn push_number(text: &mut ArrayString<64>, word: &str, number: u8)
    requires { length text.old.bytes + length word.now + 3 ≤ 64 }
    ensures text { text.new.bytes ≡ text.old.bytes ++ word.now ++ decimal number }
    ensures room { length text.new.bytes ≤ length text.old.bytes + length word.now + 3 }
{
    let mut digits = Buffer::new();
    text.push_str(word);
    text.push_str(digits.format(number));
}
