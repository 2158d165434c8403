//! Judging the text in one file by the record in another.

ghost use Rattle.std.specs.Prelude.{◌≡◌, ◌≢◌, ◌≤◌, IfSome, Ok};
ghost use Rattle.audit_command.specs.Audits.{AnswersAudit, AuditsBytes, AuditsFiles, AuditsText, BlamesShelf};
ghost use Rattle.cause_effect.specs.Stands.{IsPlanOf};
ghost use Rattle.panel_edges.specs.Faults.{Rose};
ghost use Rattle.panel_edges.specs.Shelves.{file_of};
ghost use Rattle.program_status.specs.Statuses.{BlamesReads, BlamesWrites, IsSilentWithoutMemory};
ghost use Rattle.program_status.specs.Statuses.{number_of};
ghost use Rattle.site_commands.specs.Files.{files_of};
ghost use Rattle.site_types.specs.Valid.{IsValid};

use crate::audit_stop::AuditStop;
use crate::ending::tell;
use cause_effect::Plan;
use named_files::fetch_named;
use panel_audit::{Verdict, audit};
use panel_edges::{Shelf, Sink};
use program_status::{Outcome, Status};
use site_commands::{load, stop_with};
use site_types::Site;
use std::alloc::Global;
use tick_units::NoMemory;

/// Judges the text in one file by the record in another, and tells the verdict, or why there is none.
pub fn audit_files<F: Shelf, K: Sink>(
    alloc: Global,
    site_name: &str,
    record_name: &str,
    text_name: &str,
    shelf: &mut F,
    out: &mut K,
) -> Outcome
    ensures answers { AnswersAudit (files_of F.files F.faults shelf.old shelf.new) site_name.now
        record_name.now text_name.now (K.written out.old) (K.written out.new) result }
    ensures read { BlamesReads result (F.faults shelf.old) (F.faults shelf.new) }
    ensures write { BlamesWrites result (K.write_faults out.old) (K.write_faults out.new) }
    ensures memory { IsSilentWithoutMemory result (K.written out.old) (K.written out.new) }
    ensures disk { result.status ≢ number_of Status.DiskFault }
    ensures store { result.store_failures ≡ 0 }
{
    match load(alloc, site_name, shelf) {
        Ok(loaded) => {
            let (site, plan) = (&loaded.site, &loaded.plan);
            let audited = audit_named(alloc, site, plan, record_name, text_name, shelf);
            tell(record_name, text_name, &audited, out)
        }
        Err(stop) => stop_with(&stop, out),
    }
}

// The verdict on the files of two names.
fn audit_named<F: Shelf>(
    alloc: Global,
    site: &Site,
    plan: &Plan,
    record_name: &str,
    text_name: &str,
    shelf: &mut F,
) -> Result<Verdict, AuditStop>
    requires site { IsValid site.now }
    requires plan { IsPlanOf site.now plan.now }
    ensures audits { IfSome (F.files shelf.old) (λ held. AuditsFiles
        (Rose (F.faults shelf.old) (F.faults shelf.new)) site.now (file_of record_name.now held)
        (file_of text_name.now held) result) }
    ensures read { BlamesShelf result (F.faults shelf.old) (F.faults shelf.new) }
    ensures later { F.faults shelf.old ≤ F.faults shelf.new }
{
    match fetch_named(alloc, record_name, shelf) {
        Ok(lines) => audit_text(alloc, site, plan, lines.as_slice(), text_name, shelf),
        Err(stop) => Err(AuditStop::NoRecord(stop)),
    }
}

// The verdict on the bytes of a record and the file of a name.
fn audit_text<F: Shelf>(
    alloc: Global,
    site: &Site,
    plan: &Plan,
    lines: &[u8],
    text_name: &str,
    shelf: &mut F,
) -> Result<Verdict, AuditStop>
    requires site { IsValid site.now }
    requires plan { IsPlanOf site.now plan.now }
    ensures audits { IfSome (F.files shelf.old) (λ held. AuditsText
        (Rose (F.faults shelf.old) (F.faults shelf.new)) site.now lines.now
        (file_of text_name.now held) result) }
    ensures read { BlamesShelf result (F.faults shelf.old) (F.faults shelf.new) }
    ensures later { F.faults shelf.old ≤ F.faults shelf.new }
{
    match fetch_named(alloc, text_name, shelf) {
        Ok(text) => judge(alloc, site, plan, lines, text.as_slice()),
        Err(stop) => Err(AuditStop::NoText(stop)),
    }
}

// The verdict on the bytes of a record and those of a text.
fn judge(
    alloc: Global,
    site: &Site,
    plan: &Plan,
    lines: &[u8],
    text: &[u8],
) -> Result<Verdict, AuditStop>
    requires site { IsValid site.now }
    requires plan { IsPlanOf site.now plan.now }
    ensures { AuditsBytes site.now lines.now text.now result }
{
    match audit(alloc, site, plan, lines, text) {
        Ok(verdict) => Ok(verdict),
        Err(NoMemory) => Err(AuditStop::NoMemory),
    }
}
