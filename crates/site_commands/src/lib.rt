//! The commands that read a site file and nothing else, and what every other command does with its site file.
//!
//! [`load`] gives the site of a name with the plan of its markers and the digest of its file, or why there is none:
//! `Loads` of specs/Sites says which, by what stands under the name. [`stop_with`] ends a command that has no site,
//! with the line that specs/Refusals gives. [`tell_counts`] tells a site's counts and [`tell_matrix`] which outputs
//! each zone asks for; `Checks` and `Draws` of specs/Commands say what they write and how they end.
#![tactic(auto)]

mod commands;
mod counts;
mod cycle_lines;
mod loaded;
mod loading;
mod matrix;
mod site_lines;
mod stop;

pub use commands::{tell_counts, tell_matrix};
pub use loaded::Loaded;
pub use loading::{load, read_file};
pub use site_lines::{stop_with, stop_with_old, write_named};
pub use stop::Stop;
