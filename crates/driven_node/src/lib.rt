//! Panels of a site that run by themselves, each with its journal, driven tick by tick.
//!
//! The programs that try such panels stand on this crate. Each call tests what a panel's own calls ask for, so that a
//! case needs no proof: a tick begins where the turns of the one before are made, events that aren't the panel's are
//! refused, and frames are read before they are taken. Begin with [`DrivenNodes`], which has all panels of a site; it
//! promises no more than that a driven panel stays one, and the tests of the programs are about the panels.
#![tactic(auto)]

mod driven_node;
mod driven_nodes;
mod driving;

pub use driven_node::DrivenNode;
pub use driven_nodes::DrivenNodes;
