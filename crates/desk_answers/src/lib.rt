//! Answers: what is written over a connection, to the byte.
//!
//! Begin with [`answer_object`]: a status with one JSON object. [`answer_table`] answers with the profile's table and
//! [`answer_bytes`] with other bytes; [`head`] is the head of an answer whose body is written elsewhere.
//!
//! - *The bytes* of each answer are a function of what it tells: specs/AnswerHeads (the status with the phrase that
//!   the library `http` gives it, the fields), specs/Objects, specs/ProfileTables. All JSON is compact, with its keys
//!   in the order of the alphabet, and ends with a line end.
//! - *A write that fails* leaves some front of the answer written.
//!
//! No call takes memory. An object goes out in one write with its head.
#![tactic(auto)]

mod answering;
mod content;
mod heads;
mod object;
mod object_texts;
mod tables;

pub use answering::{answer_bytes, answer_object, answer_table};
pub use content::Content;
pub use heads::head;
pub use object::Object;
