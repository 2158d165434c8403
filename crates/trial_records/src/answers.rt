use anyhow::{Result, bail};
use face_text::{Answers, write_answers};
use panel_edges::MemorySink;
use std::alloc::Global;

/// The most bytes that the answers of a tick may take.
const ROOM: usize = 4_096;

/// What is answered in a tick, its lines on one line with `, ` between them.
pub fn answers_of(alloc: Global, answers: &Answers) -> Result<String> {
    let Ok(mut out) = MemorySink::new(alloc, ROOM, Vec::new(alloc)) else {
        bail!("no memory");
    };
    if write_answers(answers, &mut out).is_err() {
        bail!("answers longer than their room");
    }
    let text = String::from_utf8(out.bytes)?;
    Ok(text.trim_end().replace(alloc, "\n", ", ")?)
}
