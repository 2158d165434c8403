//! A text with a line dropped, doubled or swapped, with a byte changed, and cut anywhere.

ghost use Rattle.std.specs.Prelude.{◌<◌, ◌+◌, length};
ghost use Rattle.site_types.specs.Valid.{IsValid};

use crate::plain_reader::bad_line;
use anyhow::{Result, bail};
use face_reading::{TextRefusal, read_faces};
use site_types::Site;
use std::alloc::{AllocError, Global};
use std::fs;
use timeline_text::text_of;
use trial_cases::{Lines, Words, site_at};

/// Tells of how many texts the plain program said the same, and ends with an error at the first of which it
/// didn't. The words name a site, its page and a text.
pub(crate) fn damage(rt: &HostRuntime, mut words: Words) -> Result<String> {
    let alloc = rt.alloc();
    let site = site_at(rt, words.next())?;
    let page = fs::read_to_string(rt, words.next())?;
    let text = fs::read_to_string(rt, words.next())?;
    if bad_line(alloc, &page, &text)?.is_some() {
        bail!("the plain program refuses the text itself");
    }
    tell_alike(alloc, &site, &page, &text)
}

fn tell_alike(alloc: Global, site: &Site, page: &str, text: &str) -> Result<String>
    requires { IsValid site.now }
{
    compare(alloc, site, page, text)?;
    let mut lines = Lines::new(alloc);
    lines.count("alike: lines ", turn_lines(alloc, site, page, text)? as u64);
    lines.count(", bytes ", turn_bytes(alloc, site, page, text)? as u64);
    lines.say("\n");
    lines.done()
}

// The text is read as the plain program says: to a timeline with this text, or to the same bad line.
fn compare(alloc: Global, site: &Site, page: &str, text: &str) -> Result<()>
    requires { IsValid site.now }
{
    let wanted = bad_line(alloc, page, text)?;
    match read_faces(alloc, site, text.as_bytes()) {
        Ok(timeline) => {
            let written = text_of(alloc, site, &timeline)?;
            if wanted.is_none() && written.as_str() == text {
                return Ok(());
            }
        }
        Err(TextRefusal::BadLine(line)) => {
            if wanted == Some(line) {
                return Ok(());
            }
        }
        Err(TextRefusal::NoMemory) => bail!("no memory"),
    }
    bail!("the plain program reads otherwise: {text}")
}

// Each line dropped, doubled, and swapped with the next one. How many lines there were.
fn turn_lines(alloc: Global, site: &Site, page: &str, text: &str) -> Result<usize>
    requires { IsValid site.now }
{
    let mut lines: Vec<&str> = Vec::new(alloc);
    for line in text.lines() {
        lines.push(line)?;
    }
    for place in 0..lines.len() {
        compare(alloc, site, page, &dropped(alloc, &lines, place)?)?;
        compare(alloc, site, page, &doubled(alloc, &lines, place)?)?;
        if place + 1 < lines.len() {
            compare(alloc, site, page, &swapped(alloc, &lines, place)?)?;
        }
    }
    Ok(lines.len())
}

fn dropped(alloc: Global, lines: &[&str], place: usize) -> Result<String, AllocError>
    requires { place < length lines.now }
{
    let mut fewer = lines.to_vec(alloc)?;
    fewer.remove(place);
    joined(alloc, &fewer)
}

fn doubled(alloc: Global, lines: &[&str], place: usize) -> Result<String, AllocError>
    requires { place < length lines.now }
{
    let mut more = lines.to_vec(alloc)?;
    more.insert(place, lines[place])?;
    joined(alloc, &more)
}

// The text with a line and the next one the other way round.
fn swapped(alloc: Global, lines: &[&str], place: usize) -> Result<String, AllocError>
    requires { place + 1 < length lines.now }
{
    let mut other = lines.to_vec(alloc)?;
    other.swap(place, place + 1);
    joined(alloc, &other)
}

// Lines with their ends.
fn joined(alloc: Global, lines: &[&str]) -> Result<String, AllocError> {
    let mut text = String::new(alloc);
    for line in lines {
        push_line(&mut text, line)?;
    }
    Ok(text)
}

fn push_line(text: &mut String, line: &str) -> Result<(), AllocError> {
    text.push_str(line)?;
    text.push_str("\n")
}

// Each byte changed into another, and the text cut before each byte. How many bytes there were.
fn turn_bytes(alloc: Global, site: &Site, page: &str, text: &str) -> Result<usize>
    requires { IsValid site.now }
{
    for place in 0..text.len() {
        let Some((front, rest)) = text.split_at_checked(place) else {
            bail!("a text that isn't of ASCII");
        };
        compare(alloc, site, page, front)?;
        turn_byte(alloc, site, page, front, rest)?;
    }
    Ok(text.len())
}

// The first byte behind a front changed.
fn turn_byte(alloc: Global, site: &Site, page: &str, front: &str, rest: &str) -> Result<()>
    requires { IsValid site.now }
{
    let Some((_, behind)) = rest.split_at_checked(1) else {
        bail!("a text that isn't of ASCII");
    };
    for other in ["x", "1", " ", "\n"] {
        let changed = format!(in alloc; "{front}{other}{behind}")?;
        compare(alloc, site, page, changed.as_str())?;
    }
    Ok(())
}
