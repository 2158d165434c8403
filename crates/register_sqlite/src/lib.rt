//! The keeper of the service register over a database of SQLite's format, in memory or in a file.
//!
//! A [`TableKeeper`] meets the contract of `Keeper`. It opens its database at its first call, makes the tables `visits`
//! and `tests` where they aren't there, and asks it by four statements, each of which reads or writes one table alone
//! (src/statements has the six texts, each in a function of its own).
//!
//! - *Tables over memory.* A keeper in memory tells what it keeps: the rows of its two tables, as the texts' meaning
//!   makes them. Each call meets the clauses of `Keeper` on them, so what the register promises holds over it.
//! - *Nothing over a file.* Of a file nothing is told, since nothing is known of the rows that it had.
//! - *When it fails.* A keeper tells what kept its last call from its answer ([`Trouble`]): the database refused the
//!   opening or a text, or handed out a value that a visit can't hold. The count of faults rises by one exactly in the
//!   calls that met one of these, but for want of memory, which is `KeepFault::NoMemory` and no fault: `CountsFaults`
//!   of specs/Faults. Over a file what is told is what the library answered to the texts: specs/Asked and Opened.
//!   Over memory a call fails for want of memory alone, but for a test whose row would have no number: `RefusesTest`.
//! - *Nothing is overwritten.* A row whose key is there is passed over by the statement itself.
//!
//! Begin with [`TableKeeper::in_memory`] and [`TableKeeper::at`]; `IsRegister` of specs/Stored says when a database
//! is a register. The last day of a point costs a look at each row of `tests` and a look-up for each visit that tested
//! it.
#![tactic(auto)]

mod answers;
mod asking;
mod file_keeper;
mod memory_database;
mod memory_keeper;
mod memory_register;
mod statements;
mod table_keeper;
mod trouble;

pub use memory_database::MemoryDatabase;
pub use memory_register::MemoryRegister;
pub use table_keeper::{DatabaseFile, TableKeeper, TableStore};
pub use trouble::Trouble;
