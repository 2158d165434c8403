//! Which outputs need not be on, tick by tick: those that are disabled, and the sounders of a panel whose last silence
//! or resound is a silence.
//!
//! The rules stand in `site_types`, in specs/Done, and in `audit_rules`. Begin with [`ExcusedOutputs`]: it is made for
//! a site and what was retained, is told of one tick after another, and looks the operations up in a list of all that
//! were done, those of later ticks among them. An operation is in force from the tick after its own.
//!
//! [`ExcusedOutputs::new`] alone takes memory. [`ExcusedOutputs::tick`] goes over the operations that come into force,
//! each in the same few steps; [`ExcusedOutputs::excuses`] looks at two flags.
#![tactic(auto)]

mod excused_outputs;
mod kept_outputs;
mod output_settings;

pub use excused_outputs::ExcusedOutputs;
