//! **What a run writes passes an audit**, as a law over definitions ([`runs_pass_audits`]): the rules of an audit are
//! those of `audit_rules`, what a run writes is told by `panel_rules` and `run_text`, and here they meet.
//!
//! The steps on the way, each a law: the text shows the faces of the run after each tick ([`faces_are_told`]); a record
//! tells all of a run but the failures of Keep ([`records_tell_runs`]); answers and opening faces tell what was done
//! and kept ([`done_is_told`], [`account_is_told`]), of which zones, outputs and faults make the same
//! ([`alike_accounts_do_the_same`]). So each rule is kept: [`answer_rule_is_kept`], [`zone_rules_are_kept`],
//! [`account_is_told`] for outputs that are due, [`cause_rule_is_kept`]. Each function's contract says its law, and its
//! body does nothing.
#![tactic(auto)]

mod accounts;
mod answers;
mod causes;
mod done;
mod faces;
mod outputs;
mod records;
mod verdicts;
mod zones;

pub use accounts::account_is_told;
pub use answers::answer_rule_is_kept;
pub use causes::cause_rule_is_kept;
pub use done::done_is_told;
pub use faces::{faces_are_told, lengths_are_told};
pub use outputs::alike_accounts_do_the_same;
pub use records::records_tell_runs;
pub use verdicts::runs_pass_audits;
pub use zones::zone_rules_are_kept;
