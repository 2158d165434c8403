//! Changes of a text, and bytes that a text can't hold.

use anyhow::{Result, bail};
use std::alloc::{AllocError, Global};
use trial_cases::{Lines, replaced};

/// A text after changes, with bars between them. `OLD -> NEW` puts NEW in the place of OLD, which stands
/// once; `then NEW` puts a line behind the text; `fill N` puts a comment behind it, so that it has N
/// bytes. NEW may be `N times ITEM`.
pub fn changed(alloc: Global, base: &str, changes: &str) -> Result<String> {
    let mut text = String::from_str(alloc, base)?;
    for change in changes.split('|') {
        text = with_change(alloc, &text, change.trim())?;
    }
    Ok(text)
}

fn with_change(alloc: Global, text: &str, change: &str) -> Result<String> {
    if change.is_empty() {
        return Ok(String::from_str(alloc, text)?);
    }
    if let Some(line) = change.strip_prefix("then ") {
        let line = repeated(alloc, line)?;
        return Ok(format!(in alloc; "{text}{line}\n")?);
    }
    if let Some(bytes) = change.strip_prefix("fill ") {
        let bytes: usize = bytes.parse()?;
        return Ok(filled(alloc, text, bytes)?);
    }
    match change.split_once("->") {
        Some((old, new)) => {
            let new = repeated(alloc, new.trim())?;
            replaced(alloc, text, old.trim(), &new)
        }
        None => bail!("no change: {change}"),
    }
}

fn filled(alloc: Global, text: &str, bytes: usize) -> Result<String, AllocError> {
    let filling = "x".repeat(alloc, bytes.saturating_sub(text.len()).saturating_sub(1))?;
    format!(in alloc; "{text}#{filling}")
}

// `N times ITEM` is the item N times over, each `%` in it being 0, 1 and so on. Any other text is itself.
fn repeated(alloc: Global, text: &str) -> Result<String> {
    let Some((count, item)) = text.split_once(" times ") else {
        return Ok(String::from_str(alloc, text)?);
    };
    if item.contains('%') {
        numbered(alloc, item, count.parse()?)
    } else {
        Ok(item.repeat(alloc, count.parse()?)?)
    }
}

fn numbered(alloc: Global, item: &str, count: u64) -> Result<String> {
    let mut lines = Lines::new(alloc);
    for number in 0..count {
        say_numbered(&mut lines, item, number);
    }
    lines.done()
}

fn say_numbered(lines: &mut Lines, item: &str, number: u64) {
    let mut parts = item.split('%');
    lines.say(parts.next().unwrap_or(""));
    for part in parts {
        lines.number(number);
        lines.say(part);
    }
}

/// The bytes that a text on one line spells: `;` is a line end, and `\x` the byte that the two
/// hexadecimal digits behind it give.
pub fn bytes_of(alloc: Global, text: &str) -> Result<Vec<u8>> {
    let text = text.replace(alloc, ';', "\n")?;
    let mut parts = text.split("\\x");
    let mut bytes = Vec::new(alloc);
    if let Some(first) = parts.next() {
        bytes.extend_from_slice(first.as_bytes())?;
    }
    for part in parts {
        let Some((digits, rest)) = part.split_at_checked(2) else {
            bail!("no digits: {text}");
        };
        push_spelled(&mut bytes, digits, rest)?;
    }
    Ok(bytes)
}

// The byte that two digits give, and the text behind them.
fn push_spelled(bytes: &mut Vec<u8>, digits: &str, rest: &str) -> Result<()> {
    bytes.push(u8::from_str_radix(digits, 16)?)?;
    Ok(bytes.extend_from_slice(rest.as_bytes())?)
}
