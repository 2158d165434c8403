//! The files that a command reads beside its site file: a record, a text, rows to be imported.
//!
//! [`fetch_named`] gives the bytes under a name, or why there are none: `IsWhole` and `HasNoBytes` of specs/Fetched say
//! which, by what stands under the name. [`tell_no_file`] ends a command that lacks such a file; `file_text` and
//! `file_status` of specs/Missing say what it tells.
#![tactic(auto)]

mod fetching;
mod file_stop;
mod telling;

pub use fetching::fetch_named;
pub use file_stop::FileStop;
pub use telling::tell_no_file;
