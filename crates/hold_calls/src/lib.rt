//! What a panel's Hold is told over a run, and that what it then shows is what the rules say.
//!
//! The rules speak of moments; the part that holds, `panel_conditions`, speaks of its turns, each with the findings
//! that it takes and what the other parts tell it. Here stand the turns that a run makes, with what supplies,
//! loops, links, silent panels and unconfirmed outputs tell each. What a panel is told from elsewhere is given: the
//! facts of its Effect turns, the stamps of the words heard, the links that are up. The laws say that the word, the
//! faults, the news, the buzzer and the entries after these turns are those of what was told; and in a ring of panels
//! that hand their words on, those of the rules. Each function is a law: its contract says it, and its body does
//! nothing. A panel whose Hold makes these turns shows its own by the rules.
#![tactic(auto)]

mod buzzers;
mod entries;
mod faults;
mod words;

pub use buzzers::{held_buzzer, held_news, told_buzzer, told_news};
pub use entries::{held_entries, told_entries};
pub use faults::{held_faults, told_faults};
pub use words::{held_word, told_word};
