//! A panel by itself at work: one connection after another is served over it.
//!
//! Begin with [`NodeDesk::serve_one`]. It reads what comes over a connection, does what that brings about and answers
//! it: `Exchanges` of node_answers says what, over the history that the connections before it made. `ServesOne` of
//! specs/Serving says besides that the panel then stands for the history with what came, and that what power cuts leave
//! of its journal's disk goes on with the tick that was run, if any.
//!
//! A block is checked whole before its tick begins. What a tick shows is told by how the face of the panel changed
//! since the end of the tick before, so that zones which frames brought in between are told too. [`NodeDesk::open`]
//! alone takes memory.
#![tactic(auto)]

mod desk;
mod node_run;
mod opening;
mod replies;
mod reply;
mod running;
mod telling;
mod writing;

pub use desk::NodeDesk;
