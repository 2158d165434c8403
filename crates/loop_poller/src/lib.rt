//! Asks the points of a panel's loops and tells their answers, in the manner of a poller that goes round.
//!
//! Each address of a loop is asked once in a round, eight addresses of each loop in a tick. A point that is
//! not there, or that its loop doesn't reach, is silent; each other one answers what it was last reported to
//! be at. Begin with [`Poller`]: it is made for a panel of a site, is told of points and pieces of cable, and
//! in its turn of a tick puts the answers of that tick into a lane, in order of loop, then address.
//!
//! Where the points at eight addresses stand one behind the other in the site and nothing is wrong with the cable,
//! their answers are put as one group, whose masks tell which are in alarm and which are gone. Where all four loops
//! have eight such points at the addresses of a tick and no cable has a fault, the answers of the tick are put as one
//! block of four groups.
//!
//! [`Poller::new`] alone takes memory, and goes over the site's points once for each loop. Of each eight addresses
//! of a loop it keeps six bytes besides the points: the place of the first one and how many there are, where they
//! stand one behind the other; of the groups at the same addresses of the four loops 18 bytes more, as a block; of each
//! point of the site its state, and two bits that tell it too.
//! [`Poller::turn`] looks at 32 addresses, whatever the site's size. Which loops have a fault is kept as two masks: a
//! report on a cable brings one bit of each up to date, and [`Poller::broken`] and [`Poller::shorted`] look at no loop.
#![tactic(auto)]

mod blocks;
mod cables;
mod group;
mod groups;
mod point_states;
mod points;
mod polled_line;
mod poller;

pub use poller::Poller;
