//! Which points are blocked, tick by tick: disabled, or of a zone that is disabled or in test.
//!
//! The rules stand in `site_types`, in specs/Done. Begin with [`BlockedPoints`]: it is made for a site and what was
//! retained, is told of one tick after another, and looks the operations up in a list of all that were done, those of
//! later ticks among them. An operation is in force from the tick after its own.
//!
//! [`BlockedPoints::new`] alone takes memory. [`BlockedPoints::tick`] goes over the operations that come into force,
//! each in the same few steps; [`BlockedPoints::blocks`] looks at three flags.
#![tactic(auto)]

mod block;
mod blocked_points;
mod blocked_settings;
mod done_operation;
mod kept_settings;

pub use blocked_points::{BlockedPoints, count_before};
pub use blocked_settings::set_flag;
pub use done_operation::DoneOperation;
