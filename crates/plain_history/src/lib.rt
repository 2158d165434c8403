//! What befell a site and what was done, as plain lists, and what they tell of settings, cables and supplies.
//!
//! The lists have the oldest first. Each function looks through all of a list anew and gives exactly what a
//! definition of `site_types` or `panel_rules` gives for the history that the list is.
#![tactic(auto)]

mod bad_run;
mod cables;
mod done;
mod latest;
mod mark;
mod moment;
mod numbered;
mod setting;
mod settings;
mod settings_shown;
mod supplies;
mod ticking;
mod watched;

pub use cables::{broken_loops, shorted_loops};
pub use done::Done;
pub use latest::{override_done_in, silence_before};
pub use mark::{cancelled_before, floor_before, muted_before};
pub use moment::Moment;
pub use numbered::{addresses_that, numbers_that, output_at, point_at, points_in_halves, zone_at};
pub use setting::is_on;
pub use settings::Settings;
pub use settings_shown::outputs_that;
pub use supplies::shown_supplies;
pub use ticking::tick_after;
