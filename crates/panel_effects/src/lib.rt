//! What the turns of Effect of a panel find: the markers that are true, and the outputs that they ask for.
//!
//! Begin with [`Effects`]. It keeps the facts of the latest turn of Effect of a panel, the solution over them and
//! the one over what counts by hand, and what these ask of the panel's outputs. [`Effects::turn`] makes the next
//! turn over new facts, [`Effects::turn_by_words`] over those that the words tell which the panel keeps. Both
//! solutions go on from those of the turn before: only the markers that depend on a fact that changed are evaluated,
//! and the counter says how many they were, by the rules' own facts (`specs/ChangedFacts`). What is requested, and
//! which zones are released, is what the rules say of the latest turn of Effect in the run (`specs/Changes`).
//!
//! No call takes memory. A turn in which no fact changed compares the facts and does nothing else: the ring has those
//! that the words tell at hand. Otherwise it looks at a mark for each marker and at the terms of the markers that it
//! evaluates, twice, and once at each output of the panel.
#![tactic(auto)]

mod effects;

pub use effects::Effects;
