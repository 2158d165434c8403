//! Changes of a text.

use anyhow::{Result, bail};
use std::alloc::Global;
use trial_cases::replaced;

/// A text after changes, with `, ` between them. `OLD -> NEW` puts NEW in the place of OLD, which stands once, and
/// `without OLD` nothing; a bar is a line end.
pub(crate) fn changed(alloc: Global, base: &str, changes: &str) -> Result<String> {
    let mut text = String::from_str(alloc, base)?;
    let changes = changes.replace(alloc, "|", "\n")?;
    for change in changes.split(", ") {
        text = with_change(alloc, text.as_str(), change)?;
    }
    Ok(text)
}

fn with_change(alloc: Global, text: &str, change: &str) -> Result<String> {
    if change.is_empty() {
        return Ok(String::from_str(alloc, text)?);
    }
    if let Some(old) = change.strip_prefix("without ") {
        return replaced(alloc, text, old, "");
    }
    match change.split_once(" -> ") {
        Some((old, new)) => replaced(alloc, text, old, new),
        None => bail!("no change: {change}"),
    }
}
