//! What a panel by itself answers to what comes to it over its connections.
//!
//! A connection brings nothing, a frame or a tick block (`node_inputs`). `history_behind` of specs/Exchanges says what
//! that makes of the history of the panel: a frame that it may get has come, a block of the next tick was run, and all
//! else changes nothing. `answer_to` says what is answered: the frame of the panel, the part of the tick in the text,
//! or one line. `Exchanges` is one connection, with the faults that it may have, and `ExchangesEach` one after another
//! since the opening. What the panel then shows and sends is said by `node_rules`.
//!
//! [`refused_frame_line`], [`refused_block_line`] and [`other_tick_line`] are the lines; they take no memory.
//! [`Exchanged`] tells what came of a connection.
#![tactic(auto)]

mod exchanged;
mod lines;

pub use exchanged::Exchanged;
pub use lines::{TOO_LONG_LINE, other_tick_line, refused_block_line, refused_frame_line};
