//! `node SITE JOURNAL PANEL PORT COUNT`: one panel of a site by itself behind a door, one connection after another.
//!
//! Begin with [`serve_node`]. It looks whether the site has the panel, opens the journal, takes all memory, starts the
//! door and serves so many connections; then it tells how many they were. `AnswersNode` of specs/Serving says what it
//! comes to: the connections that were handed back are those that the door gave, in that order; each was answered by
//! what had come before it (`ExchangesEach` of node_answers), and a power cut at any moment leaves what was
//! acknowledged.
//!
//! A connection's fault ends that connection alone. A failing door ends serving, and a failing disk doesn't.
#![tactic(auto)]

mod connections;
mod serving;

pub use serving::serve_node;
