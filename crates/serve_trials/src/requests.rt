//! The bytes that come over a connection.

use anyhow::{Context, Result};
use std::alloc::Global;
use std::fs;
use trial_cases::Lines;

/// The bytes of a request. `words` is the name of a file that ends with `.request`, or `METHOD PATH BODY`: the body of
/// `POST /v1/ticks` is lines with `, ` between them, each of which gets its line end, and any other comes as it stands.
pub(crate) fn request_of(rt: &HostRuntime, words: &str) -> Result<Vec<u8>> {
    if words.ends_with(".request") {
        return fs::read(rt, words).context(format_args!("reading {words}"));
    }
    let (method, rest) = words.split_once(' ').unwrap_or((words, ""));
    let (path, body) = rest.split_once(' ').unwrap_or((rest, ""));
    if path == "/v1/ticks" {
        let block = block_of(rt.alloc(), body)?;
        return spelled(rt.alloc(), method, path, block.as_str());
    }
    spelled(rt.alloc(), method, path, body)
}

/// The request that posts a tick block.
pub(crate) fn post_of(alloc: Global, block: &str) -> Result<Vec<u8>> {
    spelled(alloc, "POST", "/v1/ticks", block)
}

/// The block whose lines have `, ` between them. `3 times LINE` is one line three times.
pub(crate) fn block_of(alloc: Global, words: &str) -> Result<String> {
    let mut lines = Lines::new(alloc);
    if !words.is_empty() {
        for part in words.split(", ") {
            let (times, line) = part.split_once(" times ").unwrap_or(("1", part));
            for _time in 0..times.parse::<u16>()? {
                lines.say(line);
                lines.say("\n");
            }
        }
    }
    lines.done()
}

// A request with one field, and a length where it posts.
fn spelled(alloc: Global, method: &str, path: &str, body: &str) -> Result<Vec<u8>> {
    let mut lines = Lines::new(alloc);
    for words in [method, " ", path, " HTTP/1.1\r\nHost: panel\r\n"] {
        lines.say(words);
    }
    if method != "GET" {
        lines.count("Content-Length: ", body.len() as u64);
        lines.say("\r\n");
    }
    lines.say("\r\n");
    lines.say(body);
    Ok(lines.done()?.into_bytes())
}
