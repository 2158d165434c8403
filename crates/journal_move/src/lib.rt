//! Moving a journal to a changed site: from the journal of an old site a new file is made for a new one, with what that
//! takes of the settings that were kept.
//!
//! Begin with [`move_journal`]. It reads both site files, opens the journal for the old site, puts together what is to
//! be told, makes the new journal in an empty file, and writes the text in one call. All memory is taken before the new
//! file is made. The old journal is opened and nothing else: it goes on holding what it held, and no file that isn't
//! empty is ever written to. `AnswersMove` of specs/Moves says what is told and how it ends, by the two site files and
//! what the two disks hold, and which files a crash may leave.
#![tactic(auto)]

mod moving;

pub use moving::move_journal;
