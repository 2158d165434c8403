//! The lines of a record: what befalls a site, tick by tick, as a stream of bytes.
//!
//! Begin with [`LineReader`]. It is fed pieces of a record, however they are cut, and answers each line as
//! soon as its line end comes, and the first refusal as soon as the byte is there that decides it.
//! `reading_of` of `specs/Lines` says what bytes hold: they are cut at line ends, each line is judged by the
//! first refusal that applies to it where the record stands, and nothing is looked at behind the line `end`
//! or a refusal. The reader is proved to stand for the bytes that it has used (`StandsFor` of
//! `specs/Stands`), so that how they were cut doesn't matter.
//!
//! `specs/Judged` has what one line says, in the order of the refusals: its row by first word, number of
//! fields and fixed words (`specs/Forms`); whether it may come before the first tick; its numbers; what its
//! names stand for (`specs/Events`); the ticks in their order; and the order of a tick's turns
//! (`specs/Seats`).
//!
//! [`print_line`] writes the text of a line, which `line_text` of `specs/Printed` spells. With a line end
//! behind it, a printed line is read as itself wherever it may come (`MayCome` and `ReadsBack` of
//! `specs/ReadBack`).
//!
//! No call takes memory. A byte costs the same few steps wherever a piece ends; a line with a name costs
//! steps that grow with the logarithm of the number of the site's names, and a line `cable` a look at the
//! site's loops.
#![tactic(auto)]

mod event_lines;
mod fed;
mod form;
mod form_words;
mod judge;
mod line;
mod named_points;
mod number_fields;
mod order_lines;
mod over;
mod print;
mod print_words;
mod reader;
mod refusal;
mod step;
mod ticks_so_far;
mod usual_lines;
mod why;
mod words;

pub use fed::Fed;
pub use line::Line;
pub use print::print_line;
pub use reader::LineReader;
pub use refusal::Refusal;
pub use step::Step;
pub use why::Why;
