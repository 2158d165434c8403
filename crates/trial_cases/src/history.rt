use crate::step::Step;
use anyhow::{Result, bail};
use std::alloc::Global;

/// The most ticks that a trial may take.
const MOST_TICKS: u64 = 100_000;

/// What comes in a trial, tick by tick.
#[derive(Drop)]
pub struct History<'a> {
    pub steps: Vec<Step<'a>>,
    /// The ticks that are named, in their order.
    pub ticks: Vec<u64>,
    /// The last of them.
    pub last: u64,
}

impl<'a> History<'a> {
    /// The history that a line spells.
    pub fn read(alloc: Global, line: &'a str) -> Result<History<'a>> {
        let mut steps = Vec::new(alloc);
        let mut ticks = Vec::new(alloc);
        let mut last = 0;
        for words in line.split(", ") {
            match words.strip_prefix("tick ") {
                Some(number) => {
                    last = later_tick(last, number)?;
                    ticks.push(last)?;
                }
                None => steps.push(Step { tick: last, words })?,
            }
        }
        Ok(History { steps, ticks, last })
    }
}

// The tick of this number, later than the last one.
fn later_tick(last: u64, number: &str) -> Result<u64> {
    match number.parse::<u64>() {
        Ok(tick) if tick > last && tick <= MOST_TICKS => Ok(tick),
        _ => bail!("no tick after tick {last}: {number}"),
    }
}
