//! The settings of a site's panels: what an operation may set, which one it is on and what it makes of it, and
//! the value that each has in what is retained.
//!
//! Begin with [`Setting`]. [`setting_of`] gives the setting that an operation at a panel is on, if it is on one,
//! [`value_set`] what it makes of it, and [`value_in`] what the setting has in a [`site_types::Retained`]. The rules
//! stand in `site_types`, in specs/Done.
//!
//! No call takes memory; each takes the same few steps whatever the size of the site.
#![tactic(auto)]

mod kept;
mod setting;

pub use kept::value_in;
pub use setting::{Setting, is_same, setting_of, value_set};
