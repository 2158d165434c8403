//! The deadlines of a panel that runs by itself, and the causes of what it shows: what follows from the definitions of
//! `node_rules` in every run of a valid site, whatever the order of turns and whatever comes in frames.
//!
//! Each function here is a law: its contract says it, and its body does nothing. Such a panel shows of its own zones
//! what it would show in the ring ([`own_zones_of_the_ring`]), so they are shown when they are due, and only with a
//! cause ([`due_at_node_is_shown`], [`shown_at_node_is_caused`], [`lone_at_node_is_shown`]); the zones of other panels
//! are those of the newest words that came, which `node_rules` says. A turn goes by the words that the panel keeps when
//! it makes it ([`turns_go_by_words_kept`]). So its outputs are on when its own zones ask for them
//! ([`due_at_node_is_on`]) and when the words do that it keeps ([`asked_at_node_is_on`], [`kept_throughout_is_on`]),
//! and no output is on unless such words asked for it ([`on_at_node_is_caused`]).
#![tactic(auto)]

mod outputs;
mod words;
mod zones;

pub use outputs::{
    asked_at_node_is_on, due_at_node_is_on, kept_throughout_is_on, on_at_node_is_caused,
};
pub use words::turns_go_by_words_kept;
pub use zones::{
    due_at_node_is_shown, lone_at_node_is_shown, own_zones_of_the_ring, shown_at_node_is_caused,
};
