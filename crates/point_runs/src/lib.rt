//! Runs of ticks in which something lasts without a gap, as a point that signals.
//!
//! Begin with [`PointRun`]: it is told of one tick after another whether a test holds in it, and has the tick since
//! which the test has held without a gap, and the last tick from which on it held for a whole round. What it stands for
//! is `RunStands` of specs/Runs. A tick whose test is that of the tick before needs no call: the run stands for it as
//! well, by `same_tick` of proofs/RunSteps.
//!
//! Nothing here takes memory; each call takes the same few steps.
#![tactic(auto)]

mod point_run;

pub use point_run::PointRun;
