//! What the delays of a panel's outputs hold back.
//!
//! Begin with [`Delays`]. Each tick's [`Delays::turn`] is told which outputs are asked for, and tells which
//! of them no delay holds back. A delay runs from the turn at which the present unbroken request for its
//! output began, whatever asks for it. It holds the output back until it is over, but not where the output is
//! asked for by hand, where the delays of the panel are off, or where an override was done in the tick of
//! that turn or later, and before this tick.
//!
//! Contracts speak of all calls so far: `StandsFor` joins [`Delays`] to them, and `is_through` of specs/Runs
//! says of them which outputs a turn lets through. No call takes memory or refuses. A turn takes a step for
//! each output of the panel that has a delay, every other call the same few, but that new [`Delays`] look
//! through the site's outputs.
#![tactic(auto)]

mod delays;
mod overrides;
mod timer;

pub use delays::Delays;
