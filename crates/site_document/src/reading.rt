ghost use Rattle.std.specs.Prelude.{◌≡◌, ◌≤◌, IfErr, IfOk, length};
ghost use Rattle.toml.specs.Data.{Members};
ghost use Rattle.toml.specs.View.{table_view};
ghost use Rattle.site_types.specs.Limits.{site_bytes};
ghost use Rattle.site_document.specs.Documents.{IsAccepted, IsDocument, IsRefusedBy};
ghost use Rattle.site_document.specs.Drafts.{draft_of};
ghost use Rattle.site_document.specs.Walk.{finding};

use crate::draft::Draft;
use crate::draft_reading::spell_draft;
use crate::refusal::SiteRefusal;
use crate::walk::check_document;
use site_types::SITE_BYTES;
use std::alloc::Global;
use toml::Table;

/// Reads a site file of any bytes into its draft, or answers the first fault: too many bytes, no TOML
/// document, then the first finding of the first pass that finds anything. Takes memory for the document and
/// the draft, some times the file's length.
pub fn read_draft(alloc: Global, bytes: &[u8]) -> Result<Draft, SiteRefusal>
    ensures draft { IfOk result (λ draft. (doc : Members) × IsAccepted finding bytes.now doc
        × (draft ≡ draft_of doc)) }
    ensures refused { IfErr result (IsRefusedBy finding bytes.now) }
{
    if bytes.len() > SITE_BYTES {
        return Err(SiteRefusal::TooLong);
    }
    let top = read_document(alloc, bytes)?;
    check_document(alloc, &top)?;
    Ok(spell_draft(alloc, &top)?)
}

fn read_document(alloc: Global, bytes: &[u8]) -> Result<Table, SiteRefusal>
    requires { length bytes.now ≤ site_bytes }
    ensures document { IfOk result (λ top. IsDocument bytes.now (table_view top)) }
    ensures refused { IfErr result (IsRefusedBy finding bytes.now) }
{
    match toml::table_from_slice(alloc, bytes) {
        Ok(top) => Ok(top),
        Err(error) => {
            if error.is_memory() {
                Err(SiteRefusal::NoMemory)
            } else {
                Err(SiteRefusal::NotToml)
            }
        }
    }
}
