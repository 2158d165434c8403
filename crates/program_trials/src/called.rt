ghost use Rattle.std.specs.Prelude.{◌≡◌, false, IfOk};

use crate::given::Given;
use crate::outside::Outside;
use crate::trickle_sink::TrickleSink;
use crate::trickle_source::TrickleSource;
use anyhow::{Result, bail};
use called_panel::{Forms, disk_of, sink_of};
use desk_doors::MemoryDoor;
use panel_edges::{MemoryDisk, MemoryShelf, MemorySource, ShelfFile};
use program_status::Outcome;
use service_keepers::{MemoryKeeper, MemoryTables};
use std::alloc::Global;

/// What came of a call, and how many calls it made of the outside.
#[derive(Drop)]
pub(crate) struct Called {
    pub(crate) outcome: Outcome,
    pub(crate) text: String,
    pub(crate) fetches: u64,
    pub(crate) reads: u64,
    pub(crate) writes: u64,
    pub(crate) disk: MemoryDisk,
    pub(crate) target: MemoryDisk,
    pub(crate) keeper: MemoryKeeper,
}

impl Called {
    /// Whether another call ended as this one did, with the same text.
    pub(crate) fn is_told_by(&self, other: &Called) -> bool {
        self.outcome == other.outcome && self.text.as_str() == other.text.as_str()
    }

    /// What the register keeps that the call left.
    pub(crate) fn into_tables(self) -> MemoryTables {
        let Called { keeper, .. } = self;
        keeper.tables
    }
}

/// Calls `panel` over forms in memory, with an empty register and a door that gives no connection.
pub(crate) fn call(alloc: Global, given: Given, outside: Outside) -> Result<Called> {
    match MemoryKeeper::new(alloc, Vec::new(alloc)) {
        Ok(keeper) => call_over(alloc, given, outside, keeper.tables),
        Err(_) => bail!("no memory"),
    }
}

/// Calls `panel` over forms in memory, with a register that keeps these tables.
pub(crate) fn call_over(
    alloc: Global,
    given: Given,
    outside: Outside,
    tables: MemoryTables,
) -> Result<Called> {
    let mut forms = Forms {
        shelf: shelf_of(alloc, given, outside.fetch)?,
        input: TrickleSource {
            source: source_of(alloc, given, outside.read)?,
            most: outside.piece.max(1),
        },
        out: TrickleSink {
            sink: sink_of(alloc, outside.write)?,
            most: outside.take.max(1),
        },
        disk: disk_of(alloc, given.journal, numbers_of(alloc, outside.disk)?)?,
        target: disk_of(alloc, given.target, numbers_of(alloc, outside.target)?)?,
        door: door_of(alloc, outside.door)?,
        keeper: MemoryKeeper {
            tables,
            fails: vec![in alloc; outside.keeper]?,
            calls: 0,
            faults: 0,
        },
    };
    let outcome = forms.call(alloc, given.words);
    let (fetches, reads, writes) = (
        forms.shelf.calls,
        forms.input.source.calls,
        forms.out.sink.calls,
    );
    let Forms {
        out,
        disk,
        target,
        keeper,
        ..
    } = forms;
    let TrickleSink { sink, .. } = out;
    Ok(Called {
        outcome,
        text: String::from_utf8(sink.bytes)?,
        fetches,
        reads,
        writes,
        disk,
        target,
        keeper,
    })
}

fn shelf_of(alloc: Global, given: Given, failing: u64) -> Result<MemoryShelf> {
    let mut files = Vec::new(alloc);
    let files_named = [(1, given.site), (2, given.third), (3, given.fourth)];
    for (place, file) in files_named {
        if let (Some(name), Some(bytes)) = (given.words.get(place), file) {
            files.push(ShelfFile {
                name: name.clone()?,
                bytes: Vec::from_slice(alloc, bytes)?,
            })?;
        }
    }
    match MemoryShelf::new(alloc, files, vec![in alloc; failing]?) {
        Ok(shelf) => Ok(shelf),
        Err(_) => bail!("no memory"),
    }
}

fn source_of(alloc: Global, given: Given, failing: u64) -> Result<MemorySource> {
    let record = Vec::from_slice(alloc, given.record)?;
    match MemorySource::new(alloc, record, vec![in alloc; failing]?) {
        Ok(source) => Ok(source),
        Err(_) => bail!("no memory"),
    }
}

// The numbers from the first to the last.
fn numbers_of(alloc: Global, failing: (u64, u64)) -> Result<Vec<u64>> {
    let mut numbers = Vec::new(alloc);
    for number in failing.0..=failing.1 {
        numbers.push(number)?;
    }
    Ok(numbers)
}

// A door that gives no connection.
fn door_of(alloc: Global, failing: u64) -> Result<MemoryDoor>
    ensures { IfOk result (λ door. door.is_out ≡ false) }
{
    match MemoryDoor::new(alloc, Vec::new(alloc), vec![in alloc; failing]?) {
        Ok(door) => Ok(door),
        Err(_) => bail!("no memory"),
    }
}
