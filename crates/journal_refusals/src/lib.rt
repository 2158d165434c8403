//! What a command tells of a journal that it can't use, and how it ends then.
//!
//! [`stop_at_journal`] ends it where the file isn't opened, [`stop_at_target`] where no journal is made in a file. The
//! lines stand in specs/JournalTexts. No call takes memory.
#![tactic(auto)]

mod journal_lines;
mod target_lines;

pub use journal_lines::stop_at_journal;
pub use target_lines::stop_at_target;
