//! Calls of one edge that fail, each in turn.

use crate::called::serve;
use crate::edge::Edge;
use crate::options::{option, range_of};
use crate::telling::told_short;
use crate::trial::Trial;
use anyhow::Result;
use std::alloc::Global;
use trial_cases::Lines;

/// What serving tells where one call of an edge fails, for each call of the range that the options give.
pub(crate) fn try_failing(alloc: Global, trial: &Trial, edge: Edge) -> Result<String> {
    let (first, last) = range_of(option(trial.options, "calls"))?;
    let mut lines = Lines::new(alloc);
    for number in first..=last.min(100_000) {
        let called = serve(alloc, trial, trial.outside.failing(edge, number))?;
        lines.count("    ", number);
        lines.say(": ");
        lines.say(told_short(alloc, trial, &called)?.as_str());
        lines.say("\n");
    }
    lines.done()
}
