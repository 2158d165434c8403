//! The rules of coincidence: when an answer of a point counts, and what the answers that count confirm,
//! release and tell.
//!
//! The definitions stand in specs/, one subject a file, and speak of two lists alone: the answers taken, the
//! oldest first, and the operations done, the newest first. Begin with specs/Confirmed, which has the types
//! of coincidence one by one. A zone is confirmed at the stamp of the later of two answers, whichever of them
//! stands first; that it makes no difference to ask each answer in turn with those before it is the law
//! [`findings_tell`]. specs/Kept says what is enough to keep of the answers, and proofs/ shows that it is.
//!
//! There is no code here but [`Finding`], what one answer is found to mean, and the laws, which do nothing.
#![tactic(auto)]

mod finding;
mod laws;

pub use finding::Finding;
pub use laws::{findings_tell, in_alarm_where_confirmed};
