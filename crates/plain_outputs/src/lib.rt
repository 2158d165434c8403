//! Which outputs are requested, held back by a delay, silenced, on, and confirmed.
//!
//! All moments are kept with what their Effect turns solved, and looked through anew for each question; what is told of
//! an output is exactly what the definitions of `panel_rules` say of it.
#![tactic(auto)]

mod acting;
mod driving;
mod on;
mod output_masks;
mod output_state;
mod quiet;
mod requests;
mod seen;
mod solved;
mod turns;
mod unconfirmed;

pub use driving::Driving;
pub use output_masks::outputs_in;
pub use output_state::OutputState;
pub use seen::Seen;
