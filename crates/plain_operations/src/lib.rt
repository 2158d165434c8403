//! What becomes of the operations that are asked for: each is denied, refused, done at once or kept first.
//!
//! A desk takes moments and stands for the definitions of `panel_rules`: which operations were done, which wait for
//! Keep, how each was answered, and what a turn of Keep changes of what is stored.
#![tactic(auto)]

mod answers_told;
mod desk;
mod op_answered;
mod outcomes;
mod reply;
mod request;
mod storing;

pub use answers_told::{answers_now, told};
pub use desk::Desk;
pub use op_answered::OpAnswered;
pub use outcomes::Outcomes;
pub use reply::Reply;
pub use request::Request;
pub use storing::{make_change, make_changes};
