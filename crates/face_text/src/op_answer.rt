use crate::reply::Reply;

/// The answer to the operation with a number.
#[derive(Clone, Copy, Default)]
pub struct OpAnswer {
    pub number: u64,
    pub reply: Reply,
}
