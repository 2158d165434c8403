//! The vocabulary of a tick: its number, the seats that have a turn in it, the order of these turns, and values
//! that change at a tick.
//!
//! A panel's time is counted in ticks. A tick begins, takes its events, and then gives each seat one turn. A
//! [`Seat`] is a [`Task`] of a panel; Keep is one seat for the whole site. Begin with [`Order`], the list of all
//! seats of a site in the order of their turns: [`Order::new`] takes a list only if it is a permutation of the
//! seats, and else says what is wrong with it and where. [`Order::canonical`] makes the order of a tick for
//! which none is given.
//!
//! A [`Switch`] tells the value that it had before the tick in which it was set, and the value after, a
//! [`LastDone`] the tick in which something was done last. [`Items`] is a list in plain data. What lies in a queue
//! between two tasks, with how many items were ever put and taken, is a definition, `LaneState`.
//!
//! No call takes memory; [`NoMemory`] is what calls above answer where it is refused. All calls take a time that
//! doesn't depend on a site, but for [`Order::new`], which looks at each seat once; of a list that is refused since
//! a seat is missing, it compares each seat of the site with the list.
#![tactic(auto)]

mod items;
mod last_done;
mod memory;
mod order;
mod order_fault;
mod seat;
mod seat_set;
mod switch;
mod task;
mod tick;

pub use items::Items;
pub use last_done::LastDone;
pub use memory::NoMemory;
pub use order::Order;
pub use order_fault::BadOrder;
pub use seat::Seat;
pub use switch::Switch;
pub use task::Task;
pub use tick::{LAST_TICK, Tick, TickLimit, next_tick};
