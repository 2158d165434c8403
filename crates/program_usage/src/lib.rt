//! The line that tells how the program is called.
//!
//! [`tell_usage`] ends a call whose words are no command's: `usage_line` of specs/Usage is all that it writes. No call
//! takes memory.
#![tactic(auto)]

mod usage;

pub use usage::tell_usage;
