ghost use Rattle.std.specs.Prelude.{◌≡◌};
ghost use Rattle.toml.specs.View.{table_view};
ghost use Rattle.site_document.specs.Refusals.{Tells};
ghost use Rattle.site_document.specs.Unknown.{is_known as is_known_in, unknown_in};

use crate::needs::is_allowed;
use crate::place::Place;
use crate::refusal::SiteRefusal;
use crate::refusals::unknown;
use crate::row_kind::RowKind;
use crate::rules::keys_of;
use std::alloc::Global;
use toml::Table;

/// Refuses a table with a key that it may not have.
#[tactic(auto, unfolding(crate::specs::Unknown::unknown_in))]
pub fn check_unknown(alloc: Global, place: &Place, table: &Table) -> Result<(), SiteRefusal>
    ensures { Tells result (unknown_in place.now (table_view table.now)) }
{
    'members: for (name, _) in table.iter() {
        if !is_known(place.kind, table, name.as_str()) {
            return Err(unknown(alloc, place, name.as_str()));
        }
    }
    Ok(())
}

#[tactic(auto, unfolding(crate::specs::Unknown::is_known))]
fn is_known(kind: RowKind, table: &Table, name: &str) -> bool
    ensures { result ≡ is_known_in kind (table_view table.now) name.now }
{
    keys_of(kind)
        .iter()
        .any(|key| key.word() == name && is_allowed(*key, table))
}
