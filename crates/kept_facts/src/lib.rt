//! The facts of a turn of Effect of a panel by itself: what the words that it keeps say of zones, and which of them
//! tell a fault.
//!
//! [`facts_kept`] reads them off a `KeptWords`, panel by panel. Where each word is one that a frame may have of its
//! panel, as those of frames in the grammar are, the masks are exactly the facts that these words tell
//! (`TellsKeptFacts`), with no bit besides.
//!
//! It takes no memory and looks at the word of each panel once.
#![tactic(auto)]

mod facts;

pub use facts::facts_kept;
