//! What is said of a case behind its requests: parts such as `count 2, keeper 3`, with `, ` between them.

use crate::outside::{Outside, SOUND};
use anyhow::Result;

/// The outside that the options speak of: the number of the call that fails behind the name of its edge.
pub(crate) fn outside_of(options: &str) -> Result<Outside> {
    let mut outside = SOUND;
    outside.keeper = number_of(options, "keeper")?;
    outside.door = number_of(options, "door")?;
    outside.disk = number_of(options, "disk")?;
    outside.telling = number_of(options, "telling")?;
    Ok(outside)
}

// The number behind a word, 0 where no part begins with it.
fn number_of(options: &str, word: &str) -> Result<u64> {
    match option(options, word) {
        "" => Ok(0),
        number => Ok(number.parse::<u64>()?),
    }
}

/// What stands behind this word, empty where no part begins with it.
pub(crate) fn option<'a>(options: &'a str, word: &str) -> &'a str {
    for part in options.split(", ") {
        let (name, rest) = part.split_once(' ').unwrap_or((part, ""));
        if name == word {
            return rest;
        }
    }
    ""
}

/// What stands behind this word, or another text where no part begins with it.
pub(crate) fn option_or<'a>(options: &'a str, word: &str, other: &'a str) -> &'a str {
    match option(options, word) {
        "" => other,
        given => given,
    }
}

/// The first and the last of a range such as `1 to 120`.
pub(crate) fn range_of(words: &str) -> Result<(u64, u64)> {
    let (first, last) = words.split_once(" to ").unwrap_or((words, words));
    Ok((first.parse::<u64>()?, last.parse::<u64>()?))
}
