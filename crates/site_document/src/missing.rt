ghost use Rattle.toml.specs.View.{table_view};
ghost use Rattle.site_document.specs.Missing.{missing_at};
ghost use Rattle.site_document.specs.Refusals.{Tells};

use crate::key::Key;
use crate::needs::is_needed;
use crate::place::Place;
use crate::refusal::SiteRefusal;
use crate::refusals::missing;
use crate::tables::look_up;
use std::alloc::Global;
use toml::Table;

/// Refuses a table in which a needed key is absent.
#[tactic(auto, unfolding(crate::specs::Missing::missing_at))]
pub fn check_missing(
    alloc: Global,
    place: &Place,
    table: &Table,
    key: Key,
) -> Result<(), SiteRefusal>
    ensures { Tells result (missing_at place.now (table_view table.now) key) }
{
    if is_needed(key, table) && look_up(table, key).is_none() {
        Err(missing(alloc, place, key))
    } else {
        Ok(())
    }
}
