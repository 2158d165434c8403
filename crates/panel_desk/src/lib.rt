//! The desk: one connection after another is served over a site at work.
//!
//! Begin with [`Desk::serve_one`]. It reads one request, does what it asks for and answers it, and tells what came of
//! the connection: [`Served`]. `ServesOne` of specs/Serving says all of it by the bytes that were read:
//!
//! - *What is done.* `Replies` of specs/Replies: a block whose lines are accepted and that begins the next tick is run
//!   as a record's tick is, and every other request leaves the ticks as they were; of the register what desk_register
//!   says.
//! - *What is answered.* The bytes of the one reply (`reply_bytes`), or a front of them where a write failed. What was
//!   done stays done then.
//! - *Where nothing is answered.* The input ended, or a read failed, before what decides came; nothing is done then.
//!
//! A tick block is checked whole before its tick begins, and takes no memory.
#![tactic(auto)]

mod desk;
mod replies;
mod reply;
mod served;
mod writing;

pub use desk::Desk;
pub use served::Served;
