//! A record that lies in memory as a whole, read to its lines.
//!
//! [`read_record`] gives the lines of a record's bytes, the last of them `end`, or the first refusal: the lines and
//! the ending that `reading_of` of `record_lines` has for these bytes. Whoever needs lines as they come takes
//! `LineReader`.
#![tactic(auto)]

mod reading;
mod record_refusal;

pub use reading::read_record;
pub use record_refusal::RecordRefusal;
