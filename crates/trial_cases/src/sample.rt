use crate::lines::Lines;
use anyhow::{Result, bail};
use std::alloc::Global;
use std::ops::Range;

/// So many drawn histories, each from a seed of its own.
#[derive(Clone, Copy)]
pub struct Sample {
    pub count: u64,
    /// The seed of the first. Each further one has the next seed.
    pub seed: u64,
}

impl Sample {
    /// The sample that words such as `2000 from seed 1` spell.
    pub fn read(words: &str) -> Result<Sample> {
        let (count, seed) = words.split_once(" from seed ").unwrap_or(("", ""));
        match (count.parse::<u32>(), seed.parse::<u32>()) {
            (Ok(count), Ok(seed)) => Ok(Sample {
                count: count as u64,
                seed: seed as u64,
            }),
            _ => bail!("no sample: {words}"),
        }
    }

    /// The seeds, one for each history.
    pub fn seeds(&self) -> Range<u64> {
        self.seed..self.seed.saturating_add(self.count)
    }

    /// What is told where all histories are as a plain program has them: ` histories: all alike`, say.
    pub fn all_alike(&self, alloc: Global, words: &str) -> Result<String> {
        let mut lines = Lines::new(alloc);
        lines.count("    ", self.count);
        lines.say(words);
        lines.say("\n");
        lines.done()
    }
}

/// What is told of the first drawn history that is otherwise than a plain program has it.
pub fn otherwise(alloc: Global, by: &str, seed: u64) -> Result<String> {
    let mut lines = Lines::new(alloc);
    lines.say("    otherwise by the ");
    lines.say(by);
    lines.count(": seed ", seed);
    lines.say("\n");
    lines.done()
}
