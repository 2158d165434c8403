//! How serving connections behind a door ends, whoever serves them, and what is told of it.
//!
//! [`ServingEnd`] tells how many connections were handed back, and whether the door failed before there were enough.
//! [`tell_end`] ends a command with the line of that: `SaysEnd` of specs/Ends. No call takes memory.
#![tactic(auto)]

mod ending;
mod lines;
mod serving_end;

pub use ending::tell_end;
pub use serving_end::ServingEnd;
