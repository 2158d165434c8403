use crate::called::call;
use crate::outside::Outside;
use crate::telling::count_lines;
use crate::trial::Trial;
use anyhow::Result;
use std::alloc::Global;

/// Something that the text of a run acknowledged.
#[derive(Clone, Copy)]
pub(crate) struct Keeping<'a> {
    /// How many calls the log of the disk had when it was told.
    pub(crate) since: usize,
    /// A line of the text with which the next run opens.
    pub(crate) line: &'a str,
    /// Whether that line is told where this was kept, or isn't told.
    pub(crate) is_told: bool,
}

impl<'a> Keeping<'a> {
    /// Whether it was kept, by the text of a run over a file that was left after so many calls.
    pub(crate) fn is_held(&self, text: &str, calls: usize) -> bool {
        calls < self.since || (count_lines(text, self.line) > 0) == self.is_told
    }
}

/// What a run acknowledges, of the options `LINE keeps LINE` and `LINE drops LINE`.
pub(crate) fn keepings_of<'a>(
    alloc: Global,
    trial: &Trial<'a>,
    outside: Outside,
) -> Result<Vec<Keeping<'a>>> {
    let mut keepings = Vec::new(alloc);
    for part in trial.options.split(", ") {
        for (word, is_told) in [(" keeps ", true), (" drops ", false)] {
            let Some((told, line)) = part.split_once(word) else {
                continue;
            };
            if let Some(since) = log_when(alloc, trial, outside, told)? {
                let keeping = Keeping {
                    since,
                    line,
                    is_told,
                };
                keepings.push(keeping)?;
            }
        }
    }
    Ok(keepings)
}

// How many calls the log had when a line was told, where it was. A run over a record that is cut behind a line has made
// the calls that the whole run makes up to there.
fn log_when(alloc: Global, trial: &Trial, outside: Outside, told: &str) -> Result<Option<usize>> {
    let record = trial.given().record;
    for (place, byte) in record.iter().enumerate() {
        if *byte == b'\n' {
            let cut = trial.given().cut(place.saturating_add(1));
            let called = call(alloc, cut, outside)?;
            if count_lines(called.text.as_str(), told) > 0 {
                return Ok(Some(called.disk.log.len()));
            }
        }
    }
    Ok(None)
}
