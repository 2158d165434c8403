ghost use Rattle.site_types.specs.Valid.{IsValid};

use anyhow::Result;
use site_types::Site;
use std::alloc::Global;
use trial_cases::{History, Lines};
use trial_records::{Block, blocks_of};

/// The ticks of a history on a line.
pub fn history_blocks(alloc: Global, site: &Site, history: &History) -> Result<Vec<Block>>
    requires { IsValid site.now }
{
    blocks_of(alloc, site, &record_of(alloc, history)?)
}

// The lines of the record that a history on a line stands for.
fn record_of(alloc: Global, history: &History) -> Result<String> {
    let mut lines = Lines::new(alloc);
    for tick in 1..=history.last {
        lines.count("tick ", tick);
        lines.say("\n");
        for step in &history.steps {
            if step.tick == tick {
                lines.say(step.words);
                lines.say("\n");
            }
        }
    }
    lines.say("end\n");
    lines.done()
}
