//! The lanes that join Poll, Decide and Hold: queues whose items stand in runs.
//!
//! A [`Run`] holds items of some points. Those of an asking stand in one run where they can: the answers of four
//! eights of points as an [`AnswerBlock`], the findings on them as a [`FindingBlock`], with masks that tell which
//! points are in alarm, silent or missing. One of the eights is an [`AnswerGroup`], and of findings a
//! [`FindingEight`]: a [`FindingGroup`], whose findings tell the same of zones, but for some that may tell of other
//! zones. So a turn looks at what is new, and not at each point. Contracts see a [`Lane`] as the list of its items,
//! the oldest first, however they stand in runs. [`Run::one`] is an item by itself.
//!
//! A [`BlockSet`] tells of eight places at once, or of four times eight, whether each is one of some: of the points
//! that rest, that are missing or that are in alarm. It is a [`PlaceSet`] that keeps the places of the blocks in which
//! a panel is asked, [`blocks_of_panel`], in one word each. [`joined`] and [`parted`] make one word of four bytes and
//! take it apart.
//!
//! Only [`Lane::new`], [`BlockSet::first`], [`PlaceSet::first`] and [`blocks_of_panel`] take memory.
#![tactic(auto)]

mod answer_block;
mod answer_group;
mod block_places;
mod block_set;
mod eight_words;
mod expanding;
mod finding_block;
mod finding_eight;
mod finding_group;
mod finding_run;
mod known_block;
mod lane;
mod mask_bits;
mod panel_blocks;
mod place_set;
mod run;
mod run_queue;
mod several;
mod told;
mod whole;

pub use answer_block::AnswerBlock;
pub use answer_group::AnswerGroup;
pub use block_set::BlockSet;
pub use eight_words::{joined, parted};
pub use expanding::take_items;
pub use finding_block::FindingBlock;
pub use finding_eight::FindingEight;
pub use finding_group::FindingGroup;
pub use lane::Lane;
pub use panel_blocks::blocks_of_panel;
pub use place_set::PlaceSet;
pub use run::Run;
pub use several::Several;
pub use told::Told;
