//! What panels tell each other of themselves, round a ring of links.
//!
//! Panels stand in a ring, and a link joins each to the next. At its turn in a tick a panel takes the words
//! of its two neighbours over the links that are up, and keeps of each panel the newest word by stamp. So a
//! word goes round both ways, and a link that is down hides nobody. A link carries at most four words a tick:
//! with more than four panels an odd tick carries the words of panels 1 to 4, an even tick those of the
//! others.
//!
//! Begin with [`Ring`], which has what every panel keeps of every other. [`Ring::turn`] makes the turn of a
//! panel, [`Ring::telling_turn`] tells besides whether zones of others changed by it; where panels are apart,
//! [`Ring::frame`] is what one sends and [`Ring::receive`] what the other makes of it. [`Ring::facts`] has what the
//! words tell that a panel keeps: the ring keeps it beside them, and mends it where a word tells something else than
//! the one before. No call takes memory, and a turn looks at twelve words, and in each sixteenth tick at eight more.
#![tactic(auto)]

mod frame;
mod keeping;
mod ring;
mod told;

pub use frame::Frame;
pub use ring::Ring;
