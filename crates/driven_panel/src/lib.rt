//! A system with its journal, driven tick by tick.
//!
//! The programs that try whole panels stand on this crate. Each call tests what the system's own calls ask for, so that
//! a case needs no proof: a tick begins where the one before is over, events of another site are refused, and each
//! tick has every turn once. It promises no more than that a driven system stays one, and the tests of the programs
//! are about the system.
#![tactic(auto)]

mod driving;
mod installation;
mod orders;

pub use driving::{face_of, opened, run_events, taken};
pub use installation::Installation;
pub use orders::{order_of, tested_order};
