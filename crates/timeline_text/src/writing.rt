use anyhow::{Result, bail};
use face_text::{Face, Timeline, write_answers, write_changes};
use panel_edges::{MemorySink, write_all};
use site_types::Site;
use std::alloc::Global;

/// The most bytes that a text may take.
const ROOM: usize = 65_536;

/// A sink for a text.
pub(crate) fn sink_of(alloc: Global) -> Result<MemorySink> {
    match MemorySink::new(alloc, ROOM, Vec::new(alloc)) {
        Ok(sink) => Ok(sink),
        Err(_) => bail!("no memory"),
    }
}

/// The text of a timeline of a site.
pub fn text_of(alloc: Global, site: &Site, timeline: &Timeline) -> Result<String> {
    let mut out = sink_of(alloc)?;
    write_opening(alloc, site, timeline, &mut out)?;
    let mut before = timeline.opened.as_slice();
    for step in timeline.steps.as_slice() {
        write_number(alloc, "tick ", step.tick.0, &mut out)?;
        write_faces(site, before, step.faces.as_slice(), &mut out)?;
        if write_answers(&step.answers, &mut out).is_err() {
            bail!("a text longer than its room");
        }
        before = step.faces.as_slice();
    }
    write_number(alloc, "end ", timeline.last.0, &mut out)?;
    Ok(String::from_utf8(out.bytes)?)
}

// The first line, and what is shown from the first tick on.
fn write_opening(
    alloc: Global,
    site: &Site,
    timeline: &Timeline,
    out: &mut MemorySink,
) -> Result<()> {
    let name = site.name.as_str();
    let words = format!(in alloc; "site {name} panels ")?;
    write_number(alloc, &words, site.panels as u64, out)?;
    let mut empty: Vec<Face> = Vec::new(alloc);
    for place in 0..site.panels {
        empty.push(Face::empty(place.saturating_add(1)))?;
    }
    write_faces(site, &empty, timeline.opened.as_slice(), out)
}

// A line of words and a number behind them.
fn write_number(alloc: Global, words: &str, number: u64, out: &mut MemorySink) -> Result<()> {
    let line = format!(in alloc; "{words}{number}\n")?;
    match write_all(out, line.as_bytes()) {
        Ok(()) => Ok(()),
        Err(_) => bail!("a text longer than its room"),
    }
}

// How faces changed, panel by panel.
fn write_faces(site: &Site, before: &[Face], after: &[Face], out: &mut MemorySink) -> Result<()> {
    for (was, is) in before.iter().zip(after) {
        if write_changes(site, was, is, out).is_err() {
            bail!("a text longer than its room");
        }
    }
    Ok(())
}
