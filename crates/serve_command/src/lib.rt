//! `serve SITE JOURNAL PORT COUNT`: a site at work behind a door, one connection after another.
//!
//! Begin with [`serve_site`]. It opens the journal for the site, takes all memory, tells what is shown before the
//! first tick, starts the door and serves connections, so many or until a stop; then it tells how many they were.
//! `AnswersServe` of specs/Serving says what it comes to: the connections that were handed back are those that the door
//! gave, in that order; each was served by the one desk over the one site (`IsServed` of panel_desk); at the end of
//! each tick that was run all promises of a run hold, and a power cut at any moment leaves what was acknowledged.
//!
//! A connection's fault ends that connection alone. A failing door ends serving, and a failing disk doesn't.
#![tactic(auto)]

mod counter;
mod serving;

pub use serving::serve_site;
