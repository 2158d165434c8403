//! Importing visits and tests into the service register from a table.
//!
//! Begin with [`import_csv`]. A file has the header `visit,day,engineer,point` and a row for each point that a visit
//! tested. What a row spells and why it is refused stands in `specs/Rows`, which row of a file is refused first in
//! `specs/Judged`, and what a keeper keeps after an import in `specs/Puts`.
//!
//! Every row is checked, and the keeper is asked for its visit, before anything is put. So a refused file changes
//! nothing. A keeper that fails while rows are put leaves some first ones, and the same file completes it. A file that
//! was imported changes nothing when it is imported again, and one that was put in part is completed:
//! [`imports_act_once`] and [`imports_are_completed`] are these laws.
//!
//! An import keeps the file's records and its rows in memory, and goes through the rows before for each row.
#![tactic(auto)]

mod four_fields;
mod import;
mod import_row;
mod imported;
mod judged_rows;
mod judging;
mod laws;
mod putting;
mod reading;
mod refusal;

pub use import::import_csv;
pub use imported::Imported;
pub use laws::{imports_act_once, imports_are_completed};
pub use refusal::ImportRefusal;
