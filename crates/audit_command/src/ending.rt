//! Telling a verdict.

ghost use Rattle.std.specs.Prelude.{◌≡◌, ◌≢◌};
ghost use Rattle.audit_command.specs.Audits.{IsShelfFault};
ghost use Rattle.audit_command.specs.Endings.{audit_status, audit_text, verdict_status, verdict_text};
ghost use Rattle.program_status.specs.Statuses.{BlamesWrites, IsSilentWithoutMemory, number_of};
ghost use Rattle.site_commands.specs.Commands.{Tells};

use crate::audit_stop::AuditStop;
use crate::lines::{bad_line, failed_line, passed_line};
use named_files::tell_no_file;
use panel_audit::Verdict;
use panel_edges::Sink;
use program_status::{Outcome, Status, say};
use refused_lines::refusal_line;

// Ends the command with the verdict on the files of two names.
pub(crate) fn tell<K: Sink>(
    record_name: &str,
    text_name: &str,
    audited: &Result<Verdict, AuditStop>,
    out: &mut K,
) -> Outcome
    ensures tells { Tells (audit_status audited.now)
        (audit_text record_name.now text_name.now audited.now) (K.written out.old)
        (K.written out.new) result }
    ensures read { result.status ≡ number_of Status.ReadFault → IsShelfFault audited.now }
    ensures write { BlamesWrites result (K.write_faults out.old) (K.write_faults out.new) }
    ensures memory { IsSilentWithoutMemory result (K.written out.old) (K.written out.new) }
{
    match audited {
        Ok(verdict) => tell_verdict(*verdict, out),
        Err(AuditStop::NoRecord(stop)) => tell_no_file(record_name, *stop, out),
        Err(AuditStop::NoText(stop)) => tell_no_file(text_name, *stop, out),
        Err(AuditStop::NoMemory) => Outcome::after(Status::NoMemory, 0),
    }
}

// Ends the command with a verdict.
fn tell_verdict<K: Sink>(verdict: Verdict, out: &mut K) -> Outcome
    ensures tells { Tells (verdict_status verdict) (verdict_text verdict) (K.written out.old)
        (K.written out.new) result }
    ensures read { result.status ≢ number_of Status.ReadFault }
    ensures write { BlamesWrites result (K.write_faults out.old) (K.write_faults out.new) }
    ensures memory { result.status ≢ number_of Status.NoMemory }
{
    match verdict {
        Verdict::Passed { ticks } => {
            let line = passed_line(ticks);
            say(line.as_str().as_bytes(), Status::Done, 0, out)
        }
        Verdict::Failed {
            tick,
            rule,
            panel,
            number,
        } => {
            let line = failed_line(tick, rule, panel, number);
            say(line.as_str().as_bytes(), Status::AuditFailed, 0, out)
        }
        Verdict::Record(refusal) => {
            let line = refusal_line(refusal);
            say(line.as_str().as_bytes(), Status::BadRecord, 0, out)
        }
        Verdict::Text { line } => {
            let line = bad_line(line);
            say(line.as_str().as_bytes(), Status::BadFile, 0, out)
        }
    }
}
