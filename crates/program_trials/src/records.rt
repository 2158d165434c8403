//! Records, from a history on a line or from a file.

use anyhow::Result;
use std::alloc::Global;
use std::fs;
use trial_cases::{History, Lines};

/// The reversed order of the turns of one panel.
const REVERSED: &str = "order k r1 e1 l1 h1 o1 s1 d1 p1\n";

/// The bytes of a record. `words` is the name of a file that ends with `.record`, or a history, behind which the line
/// `end` comes. A history `nothing` has no tick. Where it begins with `reversed`, each tick has that order, which is of
/// one panel.
pub(crate) fn record_of(rt: &HostRuntime, words: &str) -> Result<Vec<u8>> {
    if words.ends_with(".record") {
        return Ok(fs::read(rt, words)?);
    }
    let text = spelled(rt.alloc(), words)?;
    Ok(text.into_bytes())
}

// The record that a history spells.
fn spelled(alloc: Global, words: &str) -> Result<String> {
    let order = if words.starts_with("reversed") {
        REVERSED
    } else {
        ""
    };
    let history = History::read(alloc, words)?;
    let mut lines = Lines::new(alloc);
    for tick in 0..=history.last {
        if tick > 0 {
            lines.count("tick ", tick);
            lines.say("\n");
            lines.say(order);
        }
        for step in &history.steps {
            if step.tick == tick && step.words != "nothing" && step.words != "reversed" {
                lines.say(step.words);
                lines.say("\n");
            }
        }
    }
    lines.say("end\n");
    lines.done()
}
