//! The journal: what outlives a power cut, in one file.
//!
//! Begin with [`Journal::open`], which gives what the file of a site keeps or says why it is refused, and makes a new
//! journal of an empty file. [`Journal::commit`] keeps a batch of changes, [`Journal::mend`] makes good what an
//! earlier fault left; [`Journal::create`] makes a file with a state. What the crate promises of any disk that keeps
//! its trait's meaning:
//!
//! - *A batch is kept whole or not at all.* Each file that a crash may leave, at each moment since opening and within
//!   a call too, opens to the kept state, or to that with the whole batch last attempted.
//! - *Ok is durable.* After it each such file opens to the kept state alone.
//! - *A fault loses nothing.* The kept state is as before; the next mending or commit makes the journal whole.
//! - *Opening is one definition*, `opened` of `specs/Opening`, over the bytes alone: two slots that hold a whole
//!   state each, and 64 cells that hold the changes of one commit each. It writes to an empty file alone.
//!
//! What is said of crashes has the premise that numbers stay below 2^63; [`early_has_room`] says that they do where
//! the chosen slot's was at most 2^62 at opening.
//!
//! A commit costs two writes and two syncs, and every 65th a slot more. No call takes memory. docs/journal.md walks
//! through each write and each moment of a cut; `specs/Images` says what each file holds that a crash may leave.
#![tactic(auto)]

mod batch;
mod cell_bytes;
mod changes;
mod create_refusal;
mod disk_fault;
mod fields;
mod front;
mod journal;
mod layout;
mod log_gate;
mod new_file;
mod older_files;
mod open_refusal;
mod replay;
mod room;
mod slot_bytes;
mod slots;
mod steps;

pub use batch::Batch;
pub use create_refusal::CreateRefusal;
pub use disk_fault::DiskFault;
pub use journal::Journal;
pub use new_file::one_new_file;
pub use older_files::{older_file_opens_to_its_slot, older_file_opens_without_tests};
pub use open_refusal::OpenRefusal;
pub use room::early_has_room;
