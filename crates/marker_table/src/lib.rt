//! The markers of a site with their terms, and what a marker's terms make of it.
//!
//! A marker is true where all of its terms hold, or any, or at least so many. A term is a zone that is
//! released, a zone whose manual call point is in alarm, a panel that has a fault, or another marker. Begin
//! with [`MarkerTable`]: it is made for a site, and [`MarkerTable::evaluate`] answers one marker over
//! [`Facts`] and over the [`Values`] of the markers. Each answer costs one step of a counter that takes no
//! bytes ([`Steps`]), and nothing else raises that counter: a contract that names the counter says how many
//! markers were evaluated. Where many markers are evaluated in turn, [`Readings`] keep the facts and the values at hand
//! word by word ([`MarkerTable::evaluate_read`]).
//!
//! [`MarkerTable::new`] alone takes memory: eight bytes, rounded up by the growing of a list, for each word of 32
//! zones, call points, faults or markers in which a marker has terms, and for each time that a term stands again.
//! An evaluation looks at each of these words once, and at none after enough terms hold.
#![tactic(auto)]

mod facts;
mod input;
mod mask;
mod readings;
mod row;
mod steps;
mod table;
mod values;

pub use facts::Facts;
pub use input::Input;
pub use readings::Readings;
pub use steps::Steps;
pub use table::MarkerTable;
pub use values::Values;
