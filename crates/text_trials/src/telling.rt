//! What the lines and lists of faces and answers are.

use crate::answer_words::answers_of;
use crate::face_words::face_of;
use anyhow::{Result, bail};
use face_text::{Conditions, Face, FaceList, Held, push_list, write_answers, write_changes};
use panel_edges::{Failed, MemorySink};
use site_types::Site;
use std::alloc::Global;
use trial_cases::{Lines, Words, site_at};

const LISTS: [(&str, FaceList); 6] = [
    ("zones", FaceList::Zones),
    ("firsts", FaceList::Firsts),
    ("faults", FaceList::Faults),
    ("outputs", FaceList::Outputs),
    ("disabled", FaceList::Disabled),
    ("tests", FaceList::Tests),
];

/// The words name a site and a panel.
pub(crate) fn tell_change(rt: &HostRuntime, mut words: Words, faces: &str) -> Result<String> {
    let site = site_at(rt, words.next())?;
    tell_written(
        rt.alloc(),
        whole_sink(rt.alloc(), &site, words.byte()?, faces)?,
    )
}

/// The words name a write, that which fails, and then what the words of a change do. What was written by then
/// is a front of the whole text.
pub(crate) fn tell_failing(rt: &HostRuntime, mut words: Words, faces: &str) -> Result<String> {
    let write = words.number()?;
    words.next();
    let site = site_at(rt, words.next())?;
    tell_front(rt.alloc(), &site, words.byte()?, faces, write)
}

fn tell_front(alloc: Global, site: &Site, panel: u8, faces: &str, write: u64) -> Result<String> {
    let whole = whole_sink(alloc, site, panel, faces)?;
    let mut out = sink(alloc, write)?;
    let is_front = write_faces(site, panel, faces, &mut out).is_err()
        && whole.bytes.as_slice().starts_with(out.bytes.as_slice());
    let mut lines = Lines::new(alloc);
    lines.say("a front: ");
    lines.say(word_of(is_front));
    lines.count(", bytes ", out.bytes.len() as u64);
    lines.count(", faults ", out.faults as u64);
    lines.say("\n");
    lines.done()
}

// A sink with the whole change in it.
fn whole_sink(alloc: Global, site: &Site, panel: u8, faces: &str) -> Result<MemorySink> {
    let mut out = sink(alloc, 0)?;
    write_faces(site, panel, faces, &mut out)?;
    Ok(out)
}

fn word_of(holds: bool) -> &'static str {
    if holds { "true" } else { "false" }
}

/// The words name a site and a panel.
pub(crate) fn tell_lists(rt: &HostRuntime, mut words: Words, face: &str) -> Result<String> {
    let site = site_at(rt, words.next())?;
    let face = face_in(words.byte()?, face)?;
    lists_of(rt.alloc(), &site, &face)
}

fn lists_of(alloc: Global, site: &Site, face: &Face) -> Result<String> {
    let mut lines = Lines::new(alloc);
    for (name, list) in &LISTS {
        let text = list_text(alloc, site, face, *list)?;
        say_list(&mut lines, name, &text);
    }
    lines.done()
}

fn say_list(lines: &mut Lines, name: &str, text: &str) {
    lines.say(name);
    lines.say(" ");
    lines.say(text);
    lines.say("\n");
}

fn list_text(alloc: Global, site: &Site, face: &Face, list: FaceList) -> Result<String> {
    let mut out = sink(alloc, 0)?;
    write_list(site, face, list, &mut out)?;
    Ok(String::from_utf8(out.bytes)?)
}

/// The words name a panel.
pub(crate) fn tell_conditions(rt: &HostRuntime, mut words: Words, face: &str) -> Result<String> {
    let Conditions {
        fire,
        fault,
        disabled,
        test,
    } = face_in(words.byte()?, face)?.conditions();
    let mut lines = Lines::new(rt.alloc());
    lines.say("fire ");
    lines.say(word_of(fire));
    lines.say(", fault ");
    lines.say(word_of(fault));
    lines.say(", disabled ");
    lines.say(word_of(disabled));
    lines.say(", test ");
    lines.say(word_of(test));
    lines.say("\n");
    lines.done()
}

pub(crate) fn tell_answers(rt: &HostRuntime, answers: &str) -> Result<String> {
    let Some(answers) = answers_of(answers) else {
        bail!("no such answers");
    };
    let mut out = sink(rt.alloc(), 0)?;
    written(write_answers(&answers, &mut out))?;
    tell_written(rt.alloc(), out)
}

fn face_in(panel: u8, text: &str) -> Result<Face> {
    match face_of(panel, text) {
        Some(face) => Ok(face),
        None => bail!("no such face: {text}"),
    }
}

// A sink of which the write with this number fails, from 1.
fn sink(alloc: Global, failing: u64) -> Result<MemorySink> {
    let fails = vec![in alloc; failing]?;
    match MemorySink::new(alloc, 4096, fails) {
        Ok(sink) => Ok(sink),
        Err(_) => bail!("no memory"),
    }
}

// The change from one face to another, `FACE -> FACE`.
fn write_faces(site: &Site, panel: u8, faces: &str, out: &mut MemorySink) -> Result<()> {
    let (before, after) = faces.split_once(" -> ").unwrap_or((faces, ""));
    let before = face_in(panel, before)?;
    let after = face_in(panel, after)?;
    written(write_changes(site, &before, &after, out))
}

fn write_list(site: &Site, face: &Face, list: FaceList, out: &mut MemorySink) -> Result<()> {
    let mut held = Held::new();
    written(push_list(site, face, list, &mut held, out))?;
    written(held.flush(out))
}

fn written(answer: Result<(), Failed>) -> Result<()> {
    match answer {
        Ok(()) => Ok(()),
        Err(Failed) => bail!("a failed write"),
    }
}

fn tell_written(alloc: Global, out: MemorySink) -> Result<String> {
    let text = String::from_utf8(out.bytes)?;
    let mut lines = Lines::new(alloc);
    lines.say(&text);
    lines.count("writes ", out.calls as u64);
    lines.say("\n");
    lines.done()
}
