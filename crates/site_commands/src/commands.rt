//! The commands that read a site file and nothing else.

ghost use Rattle.std.specs.Prelude.{◌≡◌, ◌≢◌, Ok};
ghost use Rattle.cause_effect.specs.Stands.{IsPlanOf};
ghost use Rattle.program_status.specs.Statuses.{BlamesReads, BlamesWrites, IsSilentWithoutMemory};
ghost use Rattle.program_status.specs.Statuses.{number_of};
ghost use Rattle.site_commands.specs.Commands.{AnswersCheck, AnswersMatrix, Draws};
ghost use Rattle.site_commands.specs.Files.{files_of};
ghost use Rattle.site_types.specs.Valid.{IsValid};

use crate::counts::counts_line;
use crate::loading::load;
use crate::matrix::matrix_of;
use crate::site_lines::stop_with;
use cause_effect::Plan;
use panel_edges::{Shelf, Sink};
use program_status::{Outcome, Status, say};
use site_types::Site;
use std::alloc::Global;

/// Tells the counts of a site, or why it is refused.
pub fn tell_counts<F: Shelf, K: Sink>(
    alloc: Global,
    name: &str,
    shelf: &mut F,
    out: &mut K,
) -> Outcome
    ensures answers { AnswersCheck name.now (files_of F.files F.faults shelf.old shelf.new)
        (K.written out.old) (K.written out.new) result }
    ensures read { BlamesReads result (F.faults shelf.old) (F.faults shelf.new) }
    ensures write { BlamesWrites result (K.write_faults out.old) (K.write_faults out.new) }
    ensures memory { IsSilentWithoutMemory result (K.written out.old) (K.written out.new) }
    ensures disk { (result.status ≢ number_of Status.DiskFault) × (result.store_failures ≡ 0) }
{
    let loaded = match load(alloc, name, shelf) {
        Ok(loaded) => loaded,
        Err(stop) => return stop_with(&stop, out),
    };
    let line = counts_line(&loaded.site);
    say(line.as_str().as_bytes(), Status::Done, 0, out)
}

/// Tells which outputs each zone asks for where it alone is released, or why the site is refused.
pub fn tell_matrix<F: Shelf, K: Sink>(
    alloc: Global,
    name: &str,
    shelf: &mut F,
    out: &mut K,
) -> Outcome
    ensures answers { AnswersMatrix name.now (files_of F.files F.faults shelf.old shelf.new)
        (K.written out.old) (K.written out.new) result }
    ensures read { BlamesReads result (F.faults shelf.old) (F.faults shelf.new) }
    ensures write { BlamesWrites result (K.write_faults out.old) (K.write_faults out.new) }
    ensures memory { IsSilentWithoutMemory result (K.written out.old) (K.written out.new) }
    ensures disk { (result.status ≢ number_of Status.DiskFault) × (result.store_failures ≡ 0) }
{
    match load(alloc, name, shelf) {
        Ok(loaded) => draw(alloc, &loaded.site, &loaded.plan, out),
        Err(stop) => stop_with(&stop, out),
    }
}

// Writes the matrix of a site.
fn draw<K: Sink>(alloc: Global, site: &Site, plan: &Plan, out: &mut K) -> Outcome
    requires valid { IsValid site.now }
    requires plan { IsPlanOf site.now plan.now }
    ensures drawn { Draws (K.written out.old) (K.written out.new) result (Ok site.now) }
    ensures read { result.status ≢ number_of Status.ReadFault }
    ensures write { BlamesWrites result (K.write_faults out.old) (K.write_faults out.new) }
    ensures memory { IsSilentWithoutMemory result (K.written out.old) (K.written out.new) }
    ensures disk { (result.status ≢ number_of Status.DiskFault) × (result.store_failures ≡ 0) }
{
    match matrix_of(alloc, site, plan) {
        Ok(text) => say(text.as_slice(), Status::Done, 0, out),
        Err(_) => Outcome::after(Status::NoMemory, 0),
    }
}
