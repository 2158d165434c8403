//! Whether the routing and protection outputs of a panel were confirmed, and which have waited too long.
//!
//! Begin with [`Routing`]. Each tick's [`Routing::turn`] tells it which outputs are on. A routing or
//! protection output that goes on waits for its confirmation, which [`Routing::confirm`] gives. While it is
//! off a confirmation does nothing, and going off clears it. Where an output that wasn't confirmed has been
//! on from some turn to the latest one, and these lie at least the limit apart, it is unconfirmed.
//!
//! Contracts speak of all calls so far: `StandsFor` joins a [`Routing`] to them, and `state_of` of
//! specs/Confirmations says of them what an output is at. No call takes memory or refuses. A turn takes a
//! step for each routing or protection output of the panel, every other call the same few, but that a new
//! [`Routing`] looks through the site's outputs.
#![tactic(auto)]

mod routing;
mod routing_state;
mod watched_output;

pub use routing::Routing;
pub use routing_state::RoutingState;
