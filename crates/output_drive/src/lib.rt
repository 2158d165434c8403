//! The outputs of a panel over a run: which are on, which were confirmed, which have waited too long.
//!
//! Begin with [`Drive`]. As a tick begins, [`Drive::begin`] hands it what was done in the one before. At a turn of
//! the task Drive, [`Drive::turn`] is told what is asked for, the zones that are released and the outputs that are
//! disabled, and switches the outputs: those on that are asked for, pass the delays, aren't disabled and, being
//! sounders, aren't silenced. [`Drive::confirm`] takes a confirmation from outside.
//!
//! Contracts speak of a run: `DrivesFor` joins a [`Drive`] to the moments so far and to what was done in them, for
//! any facts that turns of Effect solved the markers over. Which outputs are then on, confirmed and unconfirmed is
//! what the rules say of these moments.
//!
//! No call takes memory or refuses. A turn takes a step for each output of the panel that has a delay or waits for
//! confirmations, [`Drive::begin`] one for each operation, every other call the same few, but that a new [`Drive`]
//! looks through the site's outputs.
#![tactic(auto)]

mod drive;
mod sounders;

pub use drive::Drive;
