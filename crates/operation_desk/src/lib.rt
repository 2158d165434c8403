//! Desk: operations that are asked for at the panels, the one answer of each, what waits for Keep and what is done.
//!
//! Begin with [`Desk`]. It stands for a history of moments: [`Desk::new`] for the empty one, [`Desk::begin`],
//! [`Desk::event`], [`Desk::turn`] and [`Desk::keep`] for one that is longer by the beginning of a tick, an event, a
//! turn of a panel's Desk and a turn of Keep. What it tells is what the rules of `panel_rules` make of that
//! history, in specs/Operations there: which operations wait for Keep, in the order in which they were accepted;
//! which were done in the tick that began last; and the answers of that tick, by number.
//!
//! A desk keeps what concerns the tick alone: the first four operations of each panel, those that wait, what was
//! done and answered. None of its calls takes memory, and none looks at more than 64 operations.
#![tactic(auto)]

mod desk;
mod done_operation;
mod ordered;
mod replies;
mod request;

pub use desk::Desk;
pub use done_operation::DoneOperation;
pub use request::Request;
