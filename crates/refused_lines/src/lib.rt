//! The lines by which refusals of a record are told.
//!
//! [`refusal_line`] gives `refused line`, the number of the record's line and that of the reason, and what belongs to
//! the reason: the tick that was expected and the one found, or the place in an order. `refusal_text` of specs/Refusals
//! has the bytes of each.
#![tactic(auto)]

mod refusal_lines;

pub use refusal_lines::refusal_line;
