//! Requests: what comes over a connection, read as far as it is needed to say what is asked for.
//!
//! Begin with [`read_request`]. It reads the head of one request piece by piece, judges it, and reads the body that the
//! head announces, into a [`RequestRoom`] that was taken before; so no memory is taken while a connection is served.
//! What it answers is a [`Taken`]: the request, the status that refuses it, or that more was needed and didn't come.
//!
//! - *The head* is that of the library `httparse`: `BeginsWith` of specs/Heads says in its grammar what a head is and
//!   how long it may be, `IsNoHead` that none can come any more, `IsHeadBegun` that one may.
//! - *What a head asks for* is `head_asks` of specs/Asked, or the first refusal that applies: no such path, another
//!   method, an encoded body, a body with no length, with a length that is none, with one that is too great.
//! - *What was read* decides alone, however it was cut into pieces: `MeansTaken` of specs/Taking. Bytes behind the body
//!   aren't looked at.
//!
//! A head costs a look at its bytes for each piece in which it comes, so at most 8,192 looks at 8,192 bytes where each
//! byte comes alone.
#![tactic(auto)]

mod asking;
mod body_length;
mod filling;
mod looking;
mod paths;
mod reading;
mod request_room;
mod route;
mod routes;
mod status;
mod taken;

pub use reading::read_request;
pub use request_room::RequestRoom;
pub use route::Route;
pub use routes::Routes;
pub use status::Status;
pub use taken::{Request, Taken};
