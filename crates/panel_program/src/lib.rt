//! The commands of the program `panel`: a site file and a record in, the text of all that the panels show and answer
//! out, with a journal that outlives a power cut.
//!
//! Begin with [`panel`], the one public call; the program, `panel_main`, hands real files and streams to it. Its
//! contract speaks of bytes alone: `Answers` of specs/Commands says what each command writes and how it ends, by the
//! words, the file under the site's name, the bytes of the record and those of the journal. For a run that is `Ran` of
//! specs/Runs: the text of the ticks that site, record and journal make (specs/Records, and `text_so_far` of run_text),
//! the last line and the status of the end that the bytes have (specs/Endings). In which ticks the journal could not be
//! kept is told by the text; how many these are is tied to the outcome and to the faults of its disk. Which site a
//! command has at hand, or why it has none, stands in site_commands, and what a move to a changed site comes to in
//! journal_move.
//!
//! `run_site` of src/reading opens the journal and reads the record piece by piece; `Run` takes it line by line. A
//! tick's turns are made when the line behind its block was read, and its text is written then, a short one in one
//! call. All memory of a run is taken before its first line is written. Between two lines a tick costs the turns of the
//! system and a look at the faces of its panels; its text costs the lines that it has.
#![tactic(auto)]

mod command;
mod drilling;
mod last_lines;
mod laws;
mod program;
mod reading;
mod run_end;
mod taken;

pub use laws::well_made_runs_succeed;
pub use program::panel;
