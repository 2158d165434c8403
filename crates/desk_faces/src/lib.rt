//! The face of a panel as an answer of the HTTP desk.
//!
//! [`answer_face`] writes it: the head of the answer, and one JSON object, compact, with its keys in the order of the
//! alphabet and a line end behind it. `face_object` of specs/FaceObjects spells it; its lists are those that
//! `face_text` makes of the slots of a page.
//!
//! A write that fails leaves some front of the answer written. No call takes memory. What is written is held back in a
//! room of 1,024 bytes, so that a face of which little is told goes out in one write.
#![tactic(auto)]

mod answer_writer;
mod conditions;
mod face_answer;
mod face_parts;

pub use face_answer::answer_face;
