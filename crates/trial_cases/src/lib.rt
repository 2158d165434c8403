//! What trials share: the list of cases, sites from their files, histories on a line, what
//! befalls a site, names for masks, words that are read, texts that are changed, and lines that are told.
//!
//! Only trials stand on this crate. It promises what they need to call the parts of a panel:
//! [`site_at`] gives a valid site, and [`event_of`] an event of which the site has all that it names.
//!
//! A program of trials reads the names of lists from its standard input. A list is the file `cases` in the folder
//! of its name, beside the files that its cases name, and is printed with what is answered to each. Any line that is
//! no heading is a case, `KIND SUBJECT: REST`; each trial has a table of its kinds. What must be printed stands in
//! the program's file stdout, worked out by hand, or, where histories are drawn, as plain slow programs of the rules
//! make it. What a clause of another crate says for all inputs isn't tried again, but for the examples that show that
//! the clause says what was meant.
//!
//! A history is a line of steps with `, ` between them. A step `tick 13` goes on to that tick, and the ticks
//! between two that are named pass too; any other step comes in the tick that was named last. A step that
//! stands for an event has the words of a record's line.
#![tactic(auto)]

mod answering;
mod case;
mod draws;
mod events;
mod history;
mod lines;
mod names;
mod sample;
mod site_files;
mod step;
mod texts;
mod words;

pub use answering::{answer_cases, answer_lists, is_heading};
pub use case::Case;
pub use draws::below;
pub use events::event_of;
pub use history::History;
pub use lines::Lines;
pub use names::{outputs_of, say_output, say_outputs, say_point, say_zones, with_number, zone_of};
pub use sample::{Sample, otherwise};
pub use site_files::site_at;
pub use step::Step;
pub use texts::replaced;
pub use words::{Words, look_up};
