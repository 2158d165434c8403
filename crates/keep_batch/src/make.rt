ghost use Rattle.std.specs.Prelude.{◌≡◌, ◌<◌, ◌≤◌, ◌+◌, ◌^◌, ◌++◌, [], length};
ghost use Rattle.std.specs.List.{cons_option};
ghost use Rattle.keep_batch.specs.Making.{AreCountable, MayMake, batch_from, count_from, counts_from};
ghost use Rattle.operation_desk.specs.Requests.{requests_from};
ghost use Rattle.panel_rules.specs.Batches.{changes_of};

use operation_desk::Request;
use retained_journal::Batch;
use site_types::{Change, Site};

/// The batch of a turn of Keep: for each panel, by number, the count of its entries into the fire alarm condition that
/// aren't kept yet, where there are any, then the changes of the operations that wait, in the order in which they were
/// accepted. The entries of panel 1 stand first in `entries`.
pub fn make_batch(site: &Site, entries: &[u64; 8], waiting: &[Request]) -> Batch
    requires { MayMake site.now entries.now waiting.now }
    ensures { result.items ≡ batch_from site.now entries.now waiting.now }
{
    let mut batch = Batch::new();
    put_counts(&mut batch, site.panels, entries);
    put_changes(&mut batch, site, waiting);
    batch
}

// Puts the counts of so many panels.
fn put_counts(batch: &mut Batch, panels: u8, entries: &[u64; 8])
    requires panels { panels ≤ 8 }
    requires counts { AreCountable panels entries.now }
    requires room { length (batch.old.items ++ counts_from panels entries.now) ≤ 72 }
    ensures { batch.new.items ≡ batch.old.items ++ counts_from panels entries.now }
{
    for before in 0..panels {
        put_count(batch, before + 1, entries[before as usize]);
    }
}

// Puts the count of a panel that has entries.
fn put_count(batch: &mut Batch, panel: u8, entries: u64)
    requires count { entries < 2 ^ 32 }
    requires room { length (batch.old.items ++ count_from panel entries) ≤ 72 }
    ensures { batch.new.items ≡ batch.old.items ++ count_from panel entries }
{
    if entries != 0 {
        batch.push(Change::Count {
            panel,
            entries: entries as u32,
        });
    }
}

// Puts the changes of operations.
fn put_changes(batch: &mut Batch, site: &Site, waiting: &[Request])
    requires { length (batch.old.items ++ changes_of site.now (requests_from waiting.now)) ≤ 72 }
    ensures { batch.new.items
        ≡ batch.old.items ++ changes_of site.now (requests_from waiting.now) }
{
    for request in waiting {
        put_change(batch, site.change_of(request.panel, &request.operation));
    }
}

// Puts a change, where there is one.
fn put_change(batch: &mut Batch, change: Option<Change>)
    requires { length (batch.old.items ++ cons_option change []) ≤ 72 }
    ensures { batch.new.items ≡ batch.old.items ++ cons_option change [] }
{
    if let Some(change) = change {
        batch.push(change);
    }
}
