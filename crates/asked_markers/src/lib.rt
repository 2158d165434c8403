//! Which markers are true over facts that are told by masks, and so which outputs are asked for.
//!
//! Begin with [`AskedMarkers`]: it is made for a plan and some facts, goes over to others, and tells of each output
//! whether its marker is true over them. [`with_zone`] puts a zone into masks by panel or takes it out. A mask tells a
//! fact of each zone and panel of a site (`specs/FactsTold`). Where it tells all that may be true, an output's marker
//! is true over the masks exactly where it is over some facts of which each may be true: that is the law at
//! [`all_facts_decide`], for a fact more makes no marker false.
//!
//! No call takes memory. Going over to equal facts compares them; otherwise the markers that depend on a fact that
//! changed are evaluated, and no other.
#![tactic(auto)]

mod asked_markers;
mod laws;
mod zone_marks;

pub use asked_markers::AskedMarkers;
pub use laws::all_facts_decide;
pub use zone_marks::with_zone;
