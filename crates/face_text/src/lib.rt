//! What a panel shows, and the text that tells how it changed.
//!
//! Begin with [`Face`]: all that a panel shows. [`write_changes`] writes the lines by which one face of a
//! panel differs from another, and [`write_answers`] those of a tick's [`Answers`]; [`Face::conditions`]
//! tells the conditions that a panel is in.
//!
//! The page of a panel is a table of slots (`specs/Slots`): each slot has a value in every face, and a line
//! that tells it. The text of a change is the lines of the slots whose values differ, in the order of the
//! page. The text of a whole run is a function of its timeline (`specs/Timelines`), as is which timelines a
//! run can have. `face_reading` reads such a text back, by the lines, names and masks that are made here:
//! [`named_line`], [`answer_line`], [`name_of`], [`shows`] and what stands beside them.
//!
//! [`push_list`] puts a list of a face in JSON from the same slots.
//!
//! No call takes memory. Where two faces are equal, writing their changes compares a fixed number of machine
//! words and looks at nothing of the site. Else a section of the page (zones, first states, faults, the rest)
//! is looked at only where it differs, in it a group of lines only where its mask differs, in that at what
//! differs, and what is told of a group is named by one walk over the site's list of such things, and by a
//! search of it where a panel's don't stand in the order of their numbers. Lines are held back in a room of
//! 1,024 bytes, so that a text goes out in as few writes as that room allows. Where a tick has more to tell
//! than one face, [`push_changes`] and [`push_answers`] put it behind what a [`Held`] holds already, and one
//! [`Held::flush`] writes it.
#![tactic(auto)]

mod answer_lines;
mod answers;
mod change_lines;
mod conditions;
mod face;
mod face_items;
mod face_list;
mod face_pair;
mod first_names;
mod group;
mod held;
mod lists;
mod masks;
mod naming;
mod next_change;
mod next_names;
mod op_answer;
mod op_answers;
mod page;
mod reply;
mod sections;
mod starts;
mod step;
mod timeline;
mod words;

pub use answer_lines::{answer_line, counted_line, push_answers, write_answers};
pub use answers::Answers;
pub use change_lines::{
    buzzer_line, counter_line, delays_line, named_line, push_changes, write_changes,
};
pub use conditions::Conditions;
pub use face::Face;
pub use face_list::FaceList;
pub use group::Group;
pub use held::Held;
pub use lists::push_list;
pub use masks::{last_number, shows};
pub use naming::{is_panel, name_of};
pub use op_answer::OpAnswer;
pub use op_answers::{MOST_ANSWERS, OpAnswers};
pub use reply::Reply;
pub use starts::Starts;
pub use step::Step;
pub use timeline::Timeline;
pub use words::kind_word;
