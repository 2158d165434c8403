//! The lines of what is answered in a tick.

ghost use Rattle.std.specs.Prelude.{◌≡◌, ◌≤◌, ◌++◌, codes, decimal, length, OnErr, OnOk};
ghost use Rattle.std.specs.List.{flat_map};
ghost use Rattle.panel_edges.specs.Contents.{Grows, GrowsByFront};
ghost use Rattle.panel_edges.specs.Faults.{HasCause};
ghost use Rattle.face_text.specs.Answers.{answer_line as line_of_answer, answers_text, busy_line as line_of_busy};
ghost use Rattle.face_text.specs.Answers.{busy_text, counted_line as line_of_count, failed_text, reply_words};
ghost use Rattle.face_text.specs.Holding.{Puts};

use crate::answers::Answers;
use crate::held::Held;
use crate::op_answer::OpAnswer;
use crate::op_answers::OpAnswers;
use crate::reply::Reply;
use arrayvec::ArrayString;
use itoa::Buffer;
use panel_edges::{Failed, Sink};

/// Writes the lines of what is answered in a tick.
///
/// # Errors
///
/// At the first write that fails. Some front of the text is written then.
pub fn write_answers<K: Sink>(answers: &Answers, out: &mut K) -> Result<(), Failed>
    ensures ok { OnOk result
        (Grows (K.written out.old) (K.written out.new) (answers_text answers.now)) }
    ensures err { OnErr result
        (GrowsByFront (K.written out.old) (K.written out.new) (answers_text answers.now)) }
    ensures cause { HasCause (K.write_faults out.old) (K.write_faults out.new) result }
    ensures left { K.left out.new ≡ K.left out.old }
    ensures reads { K.read_faults out.new ≡ K.read_faults out.old }
{
    let mut held = Held::new();
    push_answers(answers, &mut held, out)?;
    held.flush(out)
}

/// Puts the lines of what is answered in a tick behind what is held.
///
/// # Errors
///
/// At the first write that fails. Some front of what was held and of the text is written then.
pub fn push_answers<K: Sink>(answers: &Answers, held: &mut Held, out: &mut K) -> Result<(), Failed>
    ensures text { Puts held.old held.new (K.written out.old) (K.written out.new)
        (answers_text answers.now) result }
    ensures cause { HasCause (K.write_faults out.old) (K.write_faults out.new) result }
    ensures left { K.left out.new ≡ K.left out.old }
    ensures reads { K.read_faults out.new ≡ K.read_faults out.old }
{
    push_ops(&answers.ops, held, out)?;
    push_busy(&answers.busy, held, out)?;
    push_failed(answers.failed, held, out)
}

fn push_ops<K: Sink>(ops: &OpAnswers, held: &mut Held, out: &mut K) -> Result<(), Failed>
    ensures text { Puts held.old held.new (K.written out.old) (K.written out.new)
        (flat_map line_of_answer ops.now) result }
    ensures cause { HasCause (K.write_faults out.old) (K.write_faults out.new) result }
    ensures left { K.left out.new ≡ K.left out.old }
    ensures reads { K.read_faults out.new ≡ K.read_faults out.old }
{
    for answer in ops.as_slice() {
        held.push(answer_line(answer).as_str().as_bytes(), out)?;
    }
    Ok(())
}

fn push_busy<K: Sink>(busy: &[u64; 8], held: &mut Held, out: &mut K) -> Result<(), Failed>
    ensures text { Puts held.old held.new (K.written out.old) (K.written out.new)
        (busy_text busy.now) result }
    ensures cause { HasCause (K.write_faults out.old) (K.write_faults out.new) result }
    ensures left { K.left out.new ≡ K.left out.old }
    ensures reads { K.read_faults out.new ≡ K.read_faults out.old }
{
    for place in 0..8u8 {
        let line = busy_line(place + 1, busy[place as usize]);
        held.push(line.as_str().as_bytes(), out)?;
    }
    Ok(())
}

fn push_failed<K: Sink>(failed: bool, held: &mut Held, out: &mut K) -> Result<(), Failed>
    ensures text { Puts held.old held.new (K.written out.old) (K.written out.new)
        (failed_text failed) result }
    ensures cause { HasCause (K.write_faults out.old) (K.write_faults out.new) result }
    ensures left { K.left out.new ≡ K.left out.old }
    ensures reads { K.read_faults out.new ≡ K.read_faults out.old }
{
    if failed {
        held.push(b"store failed\n", out)
    } else {
        Ok(())
    }
}

/// The line of an answer, with its end.
pub fn answer_line(answer: &OpAnswer) -> ArrayString<64>
    ensures text { result.bytes ≡ line_of_answer answer.now }
    ensures short { length result.bytes ≤ 64 }
{
    let mut digits = Buffer::new();
    let mut line = ArrayString::new();
    line.push_str("op ");
    line.push_str(digits.format(answer.number));
    push_reply(&mut line, answer.reply);
    line
}

fn push_reply(line: &mut ArrayString<64>, reply: Reply)
    requires { length line.old.bytes ≤ 24 }
    ensures text { line.new.bytes ≡ line.old.bytes ++ reply_words reply }
    ensures short { length line.new.bytes ≤ 64 }
{
    match reply {
        Reply::Done => line.push_str(" done\n"),
        Reply::Denied { needs, has } => push_denied(line, needs, has),
        Reply::Waiting => line.push_str(" waiting\n"),
        Reply::Already => line.push_str(" already\n"),
        Reply::Store => line.push_str(" store\n"),
    }
}

fn push_denied(line: &mut ArrayString<64>, needs: u8, has: u8)
    requires { length line.old.bytes ≤ 24 }
    ensures text { line.new.bytes ≡ line.old.bytes ++ codes " denied needs " ++ decimal needs
        ++ codes " has " ++ decimal has ++ codes "\n" }
    ensures short { length line.new.bytes ≤ 64 }
{
    let mut digits = Buffer::new();
    line.push_str(" denied needs ");
    line.push_str(digits.format(needs));
    line.push_str(" has ");
    line.push_str(digits.format(has));
    line.push_str("\n");
}

// The line of a panel that operations found busy; nothing where there was none.
fn busy_line(panel: u8, count: u64) -> ArrayString<64>
    ensures text { result.bytes ≡ line_of_busy panel count }
    ensures short { length result.bytes ≤ 64 }
{
    if count == 0 {
        ArrayString::new()
    } else {
        counted_line(panel, count)
    }
}

/// The line of a panel that so many operations found busy, with its end.
pub fn counted_line(panel: u8, count: u64) -> ArrayString<64>
    ensures text { result.bytes ≡ line_of_count panel count }
    ensures short { length result.bytes ≤ 64 }
{
    let mut digits = Buffer::new();
    let mut line = ArrayString::new();
    line.push_str(digits.format(panel));
    line.push_str(" busy ");
    line.push_str(digits.format(count));
    line.push_str("\n");
    line
}
