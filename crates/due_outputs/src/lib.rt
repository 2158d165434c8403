//! Which outputs are due to be on, by the zones that are due at each panel.
//!
//! Begin with [`DueOutputs`]: it is made for a site and its plan of markers, is told at the end of each tick which
//! zones are due at each panel, and answers for each output whether it is due: asked by hand, or asked in each tick of
//! a span as long as its delay (`specs/Stands`). An output is asked where the zones that are due make its marker true.
//! With what excuses outputs, [`DueOutputs::is_due_on`] answers whether one is due to be on (`specs/DueOn`): one that
//! isn't disabled and isn't a sounder of a silenced panel is not quiet.
//!
//! [`DueOutputs::new`] alone takes memory. A tick solves the markers anew where the zones that are due at a panel
//! changed, and looks twice at each output.
#![tactic(auto)]

mod due_outputs;
mod output_run;
mod panel_markers;

pub use due_outputs::DueOutputs;
