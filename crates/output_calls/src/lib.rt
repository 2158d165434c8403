//! What the outputs of a panel are told over a run, and that what they make of it is what the rules say.
//!
//! The rules speak of moments; the parts that drive outputs, `routing_outputs`, `output_delays` and
//! `sounder_control`, each speak of calls of their own. Here stand the calls that a run makes of each, and the
//! laws that both say the same. Each function is a law: its contract says it, and its body does nothing. A panel
//! that makes these calls drives its outputs by the rules.
#![tactic(auto)]

mod delays;
mod done;
mod masks;
mod routing;
mod silence;

pub use delays::through_by_calls;
pub use done::done_is_latest_first;
pub use masks::{
    confirmed_mask_by_calls, overrides_are_over, through_mask_by_calls, unconfirmed_mask_by_calls,
};
pub use routing::{confirmed_by_calls, unconfirmed_by_calls};
pub use silence::quiet_by_calls;
