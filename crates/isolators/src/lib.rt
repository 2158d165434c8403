//! Which addresses of a loop are reached when pieces of its cable are open or short.
//!
//! A loop of cable is asked from both of its ends. An isolator opens where a short lies next to it, so that a
//! short takes out the section between two isolators and no more; an open piece takes out nothing as long as
//! it is the only fault. Begin with [`LoopLine`]: it is made of a plan, is told of each piece that changes,
//! and answers for each address whether it is reached.
//!
//! Nothing here takes memory. [`LoopLine::set_piece`] goes over the loop's pieces once or twice, which are at most 256;
//! [`LoopLine::reach`] and [`LoopLine::status`] look at what that left.
#![tactic(auto)]

mod begins;
mod line_status;
mod loop_line;

pub use line_status::LineStatus;
pub use loop_line::LoopLine;
