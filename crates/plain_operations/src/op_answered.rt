use crate::reply::Reply;
use crate::request::Request;
use tick_units::Tick;

/// An answer to an operation, and the tick in which it is given.
#[derive(Clone, Copy)]
pub struct OpAnswered {
    pub request: Request,
    pub tick: Tick,
    pub reply: Reply,
}
