//! Cause and effect: from zones, call points and faults to the outputs that are asked for.
//!
//! A marker is true where enough of its terms are, and markers may be terms of markers. [`compile`] makes a
//! [`Plan`] for a site: an order in which each marker comes after its terms. Where a marker depends on itself
//! there is none, and `compile` answers the cycle. A plan solves the markers over [`Facts`]: the [`Values`]
//! that it answers are the one solution, in which every marker has the value that its terms make of it
//! (`specs/Solutions`). The laws that there is exactly one, and that more facts make no marker false, stand
//! at [`one_solution`] and [`more_facts_keep_markers`].
//!
//! Where facts change, [`Plan::solve_changed`] goes on from the solution that is at hand: it evaluates the
//! markers that depend on a fact that changed, directly or through markers, and no other. How many it
//! evaluated the counter says, exactly (`specs/Changes`); that there is one such number stands at
//! [`one_number_of_changes`], and what it is in small cases at [`changes_of_written_cases`].
//!
//! [`compile`] alone takes memory. What the calls cost no clause says, but for the markers that
//! [`Plan::solve_changed`] evaluates. As they are written, [`compile`] looks at each term at most once for each marker
//! of the site and twice besides, and nine times at each output, [`Plan::solve`] goes over the order of the markers
//! once, and [`Plan::requests`] looks at each output of the panel once. [`Plan::solve_changed`] compares the facts, and
//! where one differs it joins, for each bit that differs, the eight words of 32 marks of the markers that depend on it,
//! and then looks at those markers alone.
#![tactic(auto)]

mod arranged;
mod asked;
mod compiled;
mod laws;
mod plan;
mod refusal;
mod terms;
mod users;
mod users_found;
mod walk;

pub use compiled::compile;
pub use laws::{
    changes_of_written_cases, more_facts_keep_markers, one_number_of_changes, one_solution,
};
pub use marker_table::{Facts, Steps, Values};
pub use plan::Plan;
pub use refusal::PlanRefusal;
