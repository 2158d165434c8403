ghost use Rattle.toml.specs.View.{items_view, table_view, view};
ghost use Rattle.site_document.specs.Refusals.{Tells};
ghost use Rattle.site_document.specs.Walk.{
  finding,
  found_at,
  found_at_keys,
  found_by,
  found_in,
  found_in_list,
  found_in_row,
  found_in_rows,
  found_stray,
};

use crate::key::Key;
use crate::missing::check_missing;
use crate::out_of_range::check_range;
use crate::pass::Pass;
use crate::place::Place;
use crate::refusal::SiteRefusal;
use crate::refusals::wrong_row;
use crate::row_kind::RowKind;
use crate::rules::keys_of;
use crate::tables::{items_at, list_key};
use crate::unknown::check_unknown;
use crate::wrong_kind::check_kind;
use std::alloc::Global;
use toml::{Table, Value};

const PASSES: [Pass; 4] = [
    Pass::Missing,
    Pass::WrongKind,
    Pass::Unknown,
    Pass::OutOfRange,
];

const ROW_KINDS: [RowKind; 5] = [
    RowKind::Loop,
    RowKind::Zone,
    RowKind::Point,
    RowKind::Output,
    RowKind::Marker,
];

/// Refuses a document in which a key is absent, of a wrong kind, unknown or out of range.
#[tactic(auto, unfolding(crate::specs::Walk::finding))]
pub fn check_document(alloc: Global, top: &Table) -> Result<(), SiteRefusal>
    ensures { Tells result (finding (table_view top.now)) }
{
    'passes: for pass in &PASSES {
        let walk = Walk {
            alloc,
            pass: *pass,
            top,
        };
        walk.check_all()?;
    }
    Ok(())
}

/// One pass over a document.
#[derive(Drop)]
struct Walk<'a> {
    alloc: Global,
    pass: Pass,
    /// The table of the whole file.
    top: &'a Table,
}

impl Walk<'_> {
    #[tactic(auto, unfolding(crate::specs::Walk::found_by))]
    fn check_all(&self) -> Result<(), SiteRefusal>
        ensures { Tells result (found_by (table_view self.now.top.now) self.now.pass) }
    {
        let whole = Place {
            kind: RowKind::Top,
            number: 0,
        };
        self.check_table(&whole, self.top)?;
        'kinds: for kind in &ROW_KINDS {
            self.check_list(*kind)?;
        }
        Ok(())
    }

    #[tactic(auto, unfolding(crate::specs::Walk::found_in_list))]
    fn check_list(&self, kind: RowKind) -> Result<(), SiteRefusal>
        ensures { Tells result (found_in_list self.now.pass (table_view self.now.top.now) kind) }
    {
        self.check_rows(kind, items_at(self.top, list_key(kind)))
    }

    fn check_rows(&self, kind: RowKind, rows: &[Value]) -> Result<(), SiteRefusal>
        ensures { Tells result (found_in_rows self.now.pass kind (table_view self.now.top.now) 1
            (items_view rows.now)) }
    {
        'rows: for (index, row) in rows.iter().enumerate() {
            let place = Place {
                kind,
                number: index + 1,
            };
            self.check_row(&place, row)?;
        }
        Ok(())
    }

    #[tactic(auto, unfolding(crate::specs::Walk::found_in_row))]
    fn check_row(&self, place: &Place, row: &Value) -> Result<(), SiteRefusal>
        ensures { Tells result (found_in_row self.now.pass place.now (table_view self.now.top.now)
            (view row.now)) }
    {
        match row {
            Value::Table(table) => self.check_table(place, table),
            Value::String(_) => self.check_stray(place),
            Value::Integer(_) => self.check_stray(place),
            Value::Float(_) => self.check_stray(place),
            Value::Boolean(_) => self.check_stray(place),
            Value::Datetime(_) => self.check_stray(place),
            Value::Array(_) => self.check_stray(place),
        }
    }

    fn check_stray(&self, place: &Place) -> Result<(), SiteRefusal>
        ensures { Tells result (found_stray self.now.pass place.now) }
    {
        match self.pass {
            Pass::WrongKind => Err(wrong_row(self.alloc, place)),
            Pass::Missing => Ok(()),
            Pass::Unknown => Ok(()),
            Pass::OutOfRange => Ok(()),
        }
    }

    #[tactic(auto, unfolding(crate::specs::Walk::found_in))]
    fn check_table(&self, place: &Place, table: &Table) -> Result<(), SiteRefusal>
        ensures { Tells result (found_in self.now.pass place.now (table_view self.now.top.now)
            (table_view table.now)) }
    {
        match self.pass {
            Pass::Unknown => check_unknown(self.alloc, place, table),
            Pass::Missing => self.check_keys(place, table),
            Pass::WrongKind => self.check_keys(place, table),
            Pass::OutOfRange => self.check_keys(place, table),
        }
    }

    fn check_keys(&self, place: &Place, table: &Table) -> Result<(), SiteRefusal>
        ensures { Tells result (found_at_keys self.now.pass place.now (table_view self.now.top.now)
            (table_view table.now)) }
    {
        let keys = keys_of(place.kind);
        'keys: for key in keys {
            self.check_key(place, table, *key)?;
        }
        Ok(())
    }

    #[tactic(auto, unfolding(crate::specs::Walk::found_at))]
    fn check_key(&self, place: &Place, table: &Table, key: Key) -> Result<(), SiteRefusal>
        ensures { Tells result (found_at self.now.pass place.now (table_view self.now.top.now)
            (table_view table.now) key) }
    {
        match self.pass {
            Pass::Missing => check_missing(self.alloc, place, table, key),
            Pass::WrongKind => check_kind(self.alloc, place, table, key),
            Pass::Unknown => Ok(()),
            Pass::OutOfRange => check_range(self.alloc, place, self.top, table, key),
        }
    }
}
