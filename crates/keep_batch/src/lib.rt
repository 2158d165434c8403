//! The batch that a turn of Keep commits: by panel the counts of its entries into the fire alarm condition that aren't
//! kept yet, then the changes of the operations that wait.
//!
//! Begin with [`make_batch`]. From how many entries of each panel aren't kept yet, and the operations that wait, it
//! makes the batch of the rules ([`batch_is`]). In every run of a valid site it may be called ([`batch_may_be_made`],
//! by [`few_entries_are_new`]), and Keep's turn may commit what it makes ([`batch_may_be_committed`]).
//!
//! It takes no memory, and looks once at each panel and at each operation that waits.
#![tactic(auto)]

mod laws;
mod make;

pub use laws::{batch_is, batch_may_be_committed, batch_may_be_made, few_entries_are_new};
pub use make::make_batch;
