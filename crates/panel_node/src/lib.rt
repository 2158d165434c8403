//! A panel of a site that runs by itself: words of the other panels come in frames.
//!
//! Begin with [`Node`]. It stands for a history of what befell it: [`Node::open`] for the empty one, [`Node::begin`],
//! [`Node::event`] and [`Node::turns`] for one that is longer by the beginning of a tick, an event of the panel and the
//! turns of all seats of its site in canonical order, [`Node::receive`] for one that is longer by a frame that came.
//! [`Node::face`] is what the panel then shows, [`Node::frame`] what it hands to its neighbours and [`Node::answers`]
//! what it answered in the tick: all are those that `node_rules` computes from the history.
//!
//! The parts of the panel are those of a panel in the ring of `panel_core`. What they are told from elsewhere comes
//! from the words that a `KeptWords` keeps: Effect goes by the facts that these tell, Hold by how old they are and by
//! the frames that came of late, and Link keeps the panel's own latest word. Turns of the other panels change nothing
//! here, as nothing befalls them. Keep commits to the panel's own journal, as in the ring.
//!
//! [`Node::open`] alone takes memory. A tick costs one turn of each of the panel's tasks, a frame four comparisons.
#![tactic(auto)]

mod faces;
mod keeping;
mod node;
mod own_turns;
mod turns;

pub use keep_turn::Store;
pub use node::Node;
