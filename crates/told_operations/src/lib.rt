//! The operations that a record asks for, and those of them that a text says were done.
//!
//! An auditor takes both from the two texts alone. [`asked_operations`] lists what the lines of a record ask for, by
//! number: `requests` of `panel_rules`, over the ticks that the lines tell. [`done_operations`] lists what the answers
//! of a text say was done; [`done_is_listed`] says that it is what the rules of an audit take for done.
//! [`first_unfounded`] finds the first answer that nobody may have given, and [`first_is_found`] says so by these
//! rules.
//!
//! Each takes memory for its list or marks, and nothing else is refused.
#![tactic(auto)]

mod asked_operation;
mod asking;
mod doing;
mod founding;

pub use asked_operation::AskedOperation;
pub use asking::asked_operations;
pub use doing::{done_is_listed, done_operations};
pub use founding::{first_is_found, first_unfounded};
