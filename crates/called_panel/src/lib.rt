//! What programs that try the call `panel` share: the forms in memory that it is made over.
//!
//! Only programs that try things stand on this crate, and it promises nothing.
#![tactic(auto)]

mod forms;
mod making;

pub use forms::Forms;
pub use making::{disk_of, sink_of};
