//! Trials over whole records against the plain program of the rules: lists of cases, printed with what is answered.
//!
//! The cases are read as those of the program `trials`, and stand by themselves since a plain program takes its time: a
//! program of the gate has two minutes.
#![tactic(auto)]

use anyhow::{Result, bail};
use trial_cases::answer_lists;

fn main(rt: HostRuntime) -> Result<()> {
    answer_lists(&rt, |name, list| match name {
        "rule" => rule_trials::answer_list(&rt, list),
        "operation" => operation_trials::answer_list(&rt, list),
        "drawn" => drawn_trials::answer_list(&rt, list),
        "drill" => drill_trials::answer_list(&rt, list),
        _ => bail!("no such list: {name}"),
    })
}
