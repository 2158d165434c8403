//! What a run told stays as more operations are done.
//!
//! The rules say of a run what it tells by the operations done so far: words, facts of the Effect turns, faults,
//! outputs. An operation is in force from the tick after its own, so what is done in a tick or later changes
//! nothing of what was told up to that tick. Here that is said of all that goes through the faults that words
//! tell, and so through facts that themselves depend on operations. Each function is a law: its contract says it,
//! and its body does nothing. A system whose operations grow turn by turn keeps what it stood for.
#![tactic(auto)]

mod calls;
mod facts;
mod faults;
mod outputs;
mod words;

pub use calls::calls_stay;
pub use facts::{facts_stay, latest_facts_stay, released_stays};
pub use faults::{faults_stay, outside_stays};
pub use outputs::outputs_stay;
pub use words::{kept_words_stay, ring_stays, told_stay, words_stay};
