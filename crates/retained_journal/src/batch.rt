use arrayvec::ArrayVec;
use site_types::Change;

/// The changes that one commit keeps, in the order in which they are made.
pub type Batch = ArrayVec<Change, 72>;
