//! What a panel's points answer, and what it makes of their answers: alarms, first states, missing points, words.
//!
//! All answers are kept and looked through anew for each question. The zones and points that are told are exactly
//! those of `coincidence_rules` and `panel_conditions` for the answers that the panel's Hold has taken; how often the
//! panel entered the fire alarm condition is counted on the way.
#![tactic(auto)]

mod alarm;
mod answered;
mod asking;
mod confirmed;
mod counted;
mod entering;
mod entering_panels;
mod evidence;
mod missing;
mod pairs;
mod places;
mod zone_state;

pub use asking::Asking;
pub use entering::Entering;
pub use entering_panels::{all_new, held_at, step_all};
pub use evidence::Evidence;
