//! The JSON bodies of requests: what a visit and a stop say.
//!
//! Begin with [`read_stop`] and [`read_visit`]. A body is read by the library `serde_json`, whose words say what is
//! JSON; of it `stop_of` and `visit_of` of specs/Bodies say what it holds, or that it isn't of its form: an object
//! with exactly these keys, a code or `-`, numbers below 2 to the 32nd, a name, and a list of at most 384 names of
//! points of the site.
//!
//! Reading takes memory for the values, and a place for each point.
#![tactic(auto)]

mod bodies;
mod fields;
mod parsing;
mod points;
mod refusal;
mod stop_body;
mod visit_body;

pub use bodies::{read_stop, read_visit};
pub use refusal::BodyRefusal;
pub use stop_body::StopBody;
pub use visit_body::VisitBody;
