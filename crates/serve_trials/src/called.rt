ghost use Rattle.std.specs.Prelude.{◌≡◌, false, IfOk};

use crate::inputs::said_answer;
use crate::options::option_or;
use crate::outside::Outside;
use crate::trial::Trial;
use anyhow::{Result, bail};
use called_panel::{Forms, disk_of, sink_of};
use desk_doors::{MemoryConn, MemoryDoor};
use panel_edges::{MemoryDisk, MemoryShelf, MemorySink, MemorySource, ShelfFile};
use program_status::Outcome;
use service_keepers::{MemoryKeeper, MemoryTables};
use std::alloc::Global;

/// How much a connection may be answered.
const MOST_ANSWER: usize = 4_000;

/// What came of a call.
#[derive(Drop)]
pub(crate) struct Called {
    pub(crate) outcome: Outcome,
    pub(crate) text: String,
    /// What each connection was answered, those too that the door didn't give; by a panel by itself, in words.
    pub(crate) answers: Vec<String>,
    /// How many connections the door gave.
    pub(crate) given: usize,
    pub(crate) journal: Vec<u8>,
    pub(crate) tables: MemoryTables,
}

impl Called {
    /// The journal's file that the call left.
    pub(crate) fn into_journal(self) -> Vec<u8> {
        let Called { journal, .. } = self;
        journal
    }
}

/// Serves the requests of a trial: all of them, where it doesn't say how many.
pub(crate) fn serve(alloc: Global, trial: &Trial, outside: Outside) -> Result<Called> {
    let all = format!(in alloc; "{}", trial.requests.len().max(1))?;
    let port = option_or(trial.options, "port", "8080");
    let count = option_or(trial.options, "count", all.as_str());
    let words = if trial.is_node() {
        words_of(
            alloc,
            &["node", trial.name, "journal", trial.panel, port, count],
        )?
    } else {
        words_of(alloc, &["serve", trial.name, "journal", port, count])?
    };
    call(alloc, words.as_slice(), trial, b"", outside)
}

/// Runs the site of a trial over a record.
pub(crate) fn run(alloc: Global, trial: &Trial, record: &[u8]) -> Result<Called> {
    let words = words_of(alloc, &["run", trial.name, "journal"])?;
    call(alloc, words.as_slice(), trial, record, trial.outside)
}

fn words_of(alloc: Global, list: &[&str]) -> Result<Vec<String>> {
    let mut words = Vec::new(alloc);
    for word in list {
        words.push(String::from_str(alloc, word)?)?;
    }
    Ok(words)
}

// Calls `panel` over forms in memory, with an empty register.
fn call(
    alloc: Global,
    words: &[String],
    trial: &Trial,
    record: &[u8],
    outside: Outside,
) -> Result<Called> {
    let (Ok(input), Ok(keeper)) = (
        MemorySource::new(alloc, Vec::from_slice(alloc, record)?, Vec::new(alloc)),
        MemoryKeeper::new(alloc, vec![in alloc; outside.keeper]?),
    ) else {
        bail!("no memory");
    };
    let journal = trial.journal.as_slice();
    let mut forms = Forms {
        shelf: shelf_of(alloc, trial)?,
        input,
        out: sink_of(alloc, outside.telling)?,
        disk: disk_of(alloc, journal, vec![in alloc; outside.disk]?)?,
        target: disk_of(alloc, b"", Vec::new(alloc))?,
        door: door_of(alloc, trial.requests.as_slice(), outside)?,
        keeper,
    };
    let outcome = forms.call(alloc, words);
    let Forms {
        out,
        disk,
        door,
        keeper,
        ..
    } = forms;
    let MemoryDoor { conns, given, .. } = door;
    let MemorySink { bytes: text, .. } = out;
    let MemoryDisk { bytes: journal, .. } = disk;
    let MemoryKeeper { tables, .. } = keeper;
    Ok(Called {
        outcome,
        text: String::from_utf8(text)?,
        answers: answers_of(alloc, trial, conns)?,
        given,
        journal,
        tables,
    })
}

fn shelf_of(alloc: Global, trial: &Trial) -> Result<MemoryShelf> {
    let mut files = Vec::new(alloc);
    if let Some(bytes) = &trial.site {
        files.push(ShelfFile {
            name: String::from_str(alloc, trial.name)?,
            bytes: bytes.clone()?,
        })?;
    }
    match MemoryShelf::new(alloc, files, Vec::new(alloc)) {
        Ok(shelf) => Ok(shelf),
        Err(_) => bail!("no memory"),
    }
}

// A door that gives a connection for each request, of which the first fails where the outside says.
fn door_of(alloc: Global, requests: &[Vec<u8>], outside: Outside) -> Result<MemoryDoor>
    ensures { IfOk result (λ door. door.is_out ≡ false) }
{
    let mut conns = Vec::new(alloc);
    for request in requests {
        let (read, write) = if conns.is_empty() {
            (outside.read, outside.write)
        } else {
            (0, 0)
        };
        conns.push(conn_of(alloc, request.as_slice(), read, write)?)?;
    }
    match MemoryDoor::new(alloc, conns, vec![in alloc; outside.door]?) {
        Ok(door) => Ok(door),
        Err(_) => bail!("no memory"),
    }
}

fn conn_of(alloc: Global, request: &[u8], read: u64, write: u64) -> Result<MemoryConn> {
    let bytes = Vec::from_slice(alloc, request)?;
    let (reads, writes) = (vec![in alloc; read]?, vec![in alloc; write]?);
    match MemoryConn::new(alloc, bytes, MOST_ANSWER, reads, writes) {
        Ok(conn) => Ok(conn),
        Err(_) => bail!("no memory"),
    }
}

// What was written to each connection.
fn answers_of(alloc: Global, trial: &Trial, conns: Vec<MemoryConn>) -> Result<Vec<String>> {
    let mut answers = Vec::new(alloc);
    for conn in conns {
        let MemoryConn { output, .. } = conn;
        let MemorySink { bytes, .. } = output;
        answers.push(if trial.is_node() {
            said_answer(alloc, &trial.digest, bytes.as_slice())?
        } else {
            String::from_utf8(bytes)?
        })?;
    }
    Ok(answers)
}
