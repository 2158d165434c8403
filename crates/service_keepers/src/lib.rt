//! The keeper of the service register: where visits, and the points that each tested, are kept.
//!
//! Nothing above this crate touches a database. It calls a [`Keeper`], which has two tables: visits, no two with
//! one number, and tests, each a visit and a point, none twice. What the crate promises is the contracts of its four
//! calls:
//!
//! - *Tables where they are told.* A keeper in memory tells what it keeps (`Tables` of specs/Tables), and each call
//!   says what it does to that. A keeper over a real file tells nothing.
//! - *Nothing is overwritten.* A visit whose number is kept, and a test that is kept, change nothing. So a call that is
//!   made twice acts once.
//! - *A fault has a cause.* Each keeper counts its faults. The count never falls, and a call answers
//!   `KeepFault::Failed` only where it rose in that call. A call that fails changes nothing.
//!
//! Begin with [`MemoryKeeper`]: the calls whose numbers it is given fail, and no other. [`SoundMemoryKeeper`] never
//! fails. Both have their tables in [`MemoryTables`].
//!
//! A put takes memory, and is refused where there is none. In memory a call looks at each row of a table, and at
//! each visit again for each test of the point whose last day is asked for.
#![tactic(auto)]

mod keep_fault;
mod keepers;
mod memory_keeper;
mod memory_tables;
mod point_test;
mod sound_memory_keeper;
mod visit;

pub use keep_fault::KeepFault;
pub use keepers::Keeper;
pub use memory_keeper::MemoryKeeper;
pub use memory_tables::MemoryTables;
pub use point_test::PointTest;
pub use sound_memory_keeper::SoundMemoryKeeper;
pub use visit::Visit;
