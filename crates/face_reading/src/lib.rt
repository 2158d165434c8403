//! Reading a text of faces and answers back.
//!
//! [`read_faces`] reads a text to the timeline whose text it is, as `face_text` tells it, or to its first bad line:
//! the first, counted from 1, that no text of a run of the site has behind the lines before it (`specs/Reading`).
//! That no two timelines have one text is [`texts_are_their_own`].
//!
//! A text is read line by line. Each line behind the first tells one [`Entry`] (`specs/Entries`): its fields spell one
//! entry at most (`specs/Spelled`, `candidates`, `thing_reading`), and the line is that entry's if the entry's own
//! line, put together again, is the same (`entry_reading`). `proofs/EntryLaws` shows that the line of an entry
//! determines it. What the lines before it told says whether it may stand there (`told`, over `rank` and `telling`).
//!
//! What a line names is found without a search of the site's lists, by a guess that is looked at (`known_names`,
//! over `guesses`), and by a search where the guess is wrong. `read_faces` alone takes memory: a table for its guesses,
//! and what it tells.
#![tactic(auto)]

mod candidates;
mod change;
mod entry;
mod entry_forms;
mod entry_lines;
mod entry_reading;
mod guesses;
mod known_names;
mod laws;
mod lines;
mod numbered;
mod rank;
mod reading;
mod telling;
mod text_refusal;
mod thing_reading;
mod told;

pub use change::Change;
pub use entry::Entry;
pub use laws::texts_are_their_own;
pub use reading::read_faces;
pub use text_refusal::TextRefusal;
