use crate::route::Route;
use crate::status::Status;

/// A request that came whole: what is asked for, and where its body stands among the bytes that were read.
#[derive(Clone, Copy)]
pub struct Request {
    pub route: Route,
    /// The bytes of its head.
    pub head: usize,
    /// The bytes of its body, none for one that is asked for without.
    pub body: usize,
}

/// What came over a connection.
#[derive(Clone, Copy)]
pub enum Taken {
    Asked(Request),
    /// It is refused before its body is looked at.
    Refused(Status),
    /// The input ended before what decides next came.
    Ended,
    /// A read failed before what decides next came.
    ReadFault,
}
