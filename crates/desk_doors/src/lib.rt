//! The door through which connections come to the HTTP desk, in memory and over sockets of the loopback address.
//!
//! Begin with [`Door`]: it is started at a port, gives one connection after another, and takes each back before it
//! gives the next. A connection is read and written as any stream is, and each of its two ends counts its own faults.
//! Contracts see the connections that still wait, each with what there is to read of it, and those that were handed
//! back, each with what is left to read of it and what was written to it. A real door tells nothing.
//!
//! [`MemoryDoor`] fails at the calls whose numbers it is given, and where no connection waits;
//! [`MemoryConn`] at the reads and writes whose numbers it is given, and where a write passes its room.
//! `SoundMemoryDoor` and `SoundMemoryConn` never fail. [`TcpDoor`] listens at the loopback address alone,
//! and a [`TcpConn`] has [`CONNECTION_SECONDS`] for all that is read, written and drained; what a real
//! socket gives and takes, and that its waiting ends by then, is trusted and not proved.
//!
//! Memory is taken where a form in memory is made; a door in memory holds its connections in places that stand
//! from its making.
#![tactic(auto)]

mod doors;
mod memory_conn;
mod memory_door;
mod sound_memory_conn;
mod sound_memory_door;
mod tcp_conn;
mod tcp_door;

pub use doors::Door;
pub use memory_conn::MemoryConn;
pub use memory_door::MemoryDoor;
pub use sound_memory_conn::SoundMemoryConn;
pub use sound_memory_door::SoundMemoryDoor;
pub use tcp_conn::{CONNECTION_SECONDS, TcpConn};
pub use tcp_door::TcpDoor;
