//! Texts that are changed.

use anyhow::{Result, bail};
use std::alloc::Global;

/// A text with another in the place of one that stands in it once.
pub fn replaced(alloc: Global, text: &str, old: &str, new: &str) -> Result<String> {
    match text.split_once(old) {
        Some((before, after)) if !after.contains(old) => {
            Ok(format!(in alloc; "{before}{new}{after}")?)
        }
        _ => bail!("{old} doesn't stand there once"),
    }
}
