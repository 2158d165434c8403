//! The text of a timeline and of a change, for trials: put together from what the writers of faces and answers write.
//!
//! Only programs that try things stand on this crate, and it promises nothing.
#![tactic(auto)]

mod changes;
mod writing;

pub use changes::changes_of;
pub use writing::text_of;
