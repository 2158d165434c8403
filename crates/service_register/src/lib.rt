//! The service register: which visits were made, which points each tested, and which points are due.
//!
//! Begin with [`Register`], which is made for a site and asks a `Keeper` for what is kept. [`Register::visit`] and
//! [`Register::tested`] put; [`Register::untested_since`] lists the points whose last day is before another, and
//! [`Register::export_csv`] writes points with their last days as a table. What each call answers is said by the
//! keeper's tables where it tells them (`specs/Answers`, `specs/Points`, `specs/Export`), and what it refuses by
//! [`RegisterRefusal`]:
//!
//! - A refused call changes nothing, and a call that is made twice acts once: [`calls_act_once`] is that law.
//! - A point that the site lacks is refused before the keeper is asked, then a fault of the keeper, then a visit that
//!   isn't kept, then another visit of the number. Want of memory may come at any place.
//!
//! `visit` and `tested` ask the keeper twice at most, and the two lists once for each point. A point is found by
//! its name by going through the site's points.
#![tactic(auto)]

mod csv_rows;
mod laws;
mod listed_point;
mod listing;
mod refusal;
mod register;

pub use laws::calls_act_once;
pub use refusal::RegisterRefusal;
pub use register::Register;
