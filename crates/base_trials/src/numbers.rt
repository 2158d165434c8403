//! Numbers that stand behind one another on a line.

use anyhow::{Result, bail};
use trial_cases::Words;

/// Refuses a line with a word that is no number.
pub(crate) fn check_numbers(line: &str) -> Result<()> {
    for word in line.split(' ') {
        if word.parse::<u32>().is_err() {
            bail!("no number: {word}");
        }
    }
    Ok(())
}

/// The next number of a line without other words, 0 where there is none.
pub(crate) fn next_number(words: &mut Words) -> u32 {
    words.next().parse::<u32>().unwrap_or(0)
}
