use crate::drawn_site::{drawn_site, site_of};
use anyhow::Result;
use compared_runs::{Pace, drawn_record};
use rand_pcg::Pcg32;
use std::alloc::Global;
use trial_cases::Lines;
use trial_records::{Block, blocks_of};

/// A drawn site with a record in which are neither orders nor reports on links.
#[derive(Drop)]
pub(crate) struct Drawn {
    pub(crate) text: String,
    pub(crate) record: String,
    pub(crate) blocks: Vec<Block>,
}

impl Drawn {
    pub(crate) fn new(alloc: Global, panels: u8, pace: &Pace, draws: &mut Pcg32) -> Result<Drawn> {
        let text = drawn_site(alloc, panels, draws)?;
        let site = site_of(alloc, &text)?;
        let mut lines = Lines::new(alloc);
        for line in drawn_record(alloc, &site, pace, draws)?.lines() {
            if !line.starts_with("order ") && !line.starts_with("link ") {
                lines.say(line);
                lines.say("\n");
            }
        }
        let record = lines.done()?;
        let blocks = blocks_of(alloc, &site, &record)?;
        Ok(Drawn {
            text,
            record,
            blocks,
        })
    }

    /// What was found, with its seed and its tick, and the site and the record.
    pub(crate) fn say(&self, alloc: Global, found: &str, seed: u64, tick: u64) -> Result<String> {
        let mut lines = Lines::new(alloc);
        lines.say("    ");
        lines.say(found);
        lines.count(": seed ", seed);
        lines.count(", tick ", tick);
        lines.say("\n");
        lines.say(&self.text);
        lines.say(&self.record);
        lines.done()
    }
}
