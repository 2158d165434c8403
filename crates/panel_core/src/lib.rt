//! The panels of a site at work: in each tick every task of every panel has one turn, in whatever order the tick gives.
//!
//! Begin with [`System`]. It stands for a history of moments: [`System::open`] for the empty one,
//! [`System::begin`], [`System::event`] and [`System::turns`] for one that is longer by the beginning of a
//! tick, an event and the turns of an order. What it tells is computed from that history by the definitions
//! of `panel_rules`, whatever the orders were: how many answers each task has taken, and which zones each
//! panel shows in alarm and in first state. A zone that is due is shown, and none is shown without a cause.
//!
//! All nine tasks are at work. An operation is asked for by an event, gets its one answer from Desk or at Keep's
//! turn, and what was done in a tick comes in force when the next one begins; [`System::answers`] tells the answers
//! of the tick. Link gives each panel's latest word to the ring and takes what its neighbours keep;
//! [`System::heard`] tells how new the word is that a panel keeps of another. Effect goes by the words that its
//! panel keeps and asks for outputs, and Drive switches them. [`System::turns`] takes the journal: Keep commits the
//! entries into the fire alarm condition that aren't kept yet and the operations that wait, in one batch, and after a
//! failure it tries again in the next tick. Whatever a power cut then leaves opens to a front of the run, and
//! [`fronts_hold_acknowledged`] says what each of these holds. [`System::face`] is all that a panel shows, the zones of
//! other panels by the words that it keeps of them; its clauses say what the rules promise of it, and how soon, and one
//! value alone meets them ([`faces_are_pinned`]).
//! [`System::has_changed`] tells which panels may show something else than at the end of the tick before: each is
//! marked in the call that changes what it shows, so no faces need to be compared.
//!
//! The parts of each panel are those of `panel_parts`; what they are told from elsewhere is what the ring tells.
//!
//! [`System::open`] alone takes memory. A tick costs a turn of each seat: Poll looks at 32 addresses, Decide and Hold
//! take at most 32 items, Link looks at twelve words and Effect at eight, Drive at the outputs of its panel that have a
//! delay or a confirmation, Keep once at each panel. An Effect turn with a changed fact evaluates the markers that
//! depend on it. A tick behind one in which operations were done applies them, at most 64, at each panel.
#![tactic(auto)]

mod faces;
mod keeping;
mod laws;
mod marked_turns;
mod marks;
mod order_form;
mod outputs_shown;
mod shown_zones;
mod system;
mod task_turns;
mod turns;

pub use keep_turn::Store;
pub use keeping::has_failed;
pub use laws::{faces_are_pinned, fronts_hold_acknowledged};
pub use order_form::OrderForm;
pub use system::System;
