//! A plain program that finds the first bad line of a text. It goes by the words of lines alone: it knows of a site
//! only a page, which has the first line of its texts, and then what each panel may tell, in the order of its page and
//! with what it is at before anything was told.

use std::alloc::{AllocError, Global};

// What may be told, and what it is at.
#[derive(Clone, Copy)]
struct Slot<'a> {
    words: &'a str,
    state: &'a str,
}

#[derive(Drop)]
struct PlainReader<'a> {
    slots: Vec<Slot<'a>>,
    tick: u64,
    // The part of a tick's lines in which the last one stands (none, pages, answers, busy panels, the store), and its
    // place there.
    part: u8,
    place: u64,
    answers: u64,
}

impl<'a> PlainReader<'a> {
    fn new(alloc: Global, page: &'a str) -> Result<PlainReader<'a>, AllocError> {
        let (_, panels) = page.split_once('\n').unwrap_or((page, ""));
        Ok(PlainReader {
            slots: slots_of(alloc, panels)?,
            tick: 0,
            part: 0,
            place: 0,
            answers: 0,
        })
    }

    // Takes a line, unless it may not stand there.
    fn take(&mut self, line: &'a str) -> bool {
        if let Some(rest) = line.strip_prefix("tick ") {
            return self.begin(rest);
        }
        if let Some(rest) = line.strip_prefix("end ") {
            return match number(rest) {
                Some(last) => self.may_close() && self.tick <= last,
                None => false,
            };
        }
        if line == "store failed" {
            return self.follows(4, 0);
        }
        if let Some(rest) = line.strip_prefix("op ") {
            return self.answer(rest);
        }
        if let Some((panel, count)) = line.split_once(" busy ") {
            return self.busy(panel, count);
        }
        match line.rsplit_once(' ') {
            Some((words, state)) => self.change(words, state),
            None => false,
        }
    }

    fn may_close(&self) -> bool {
        self.tick == 0 || self.part > 0
    }

    fn begin(&mut self, rest: &str) -> bool {
        match number(rest) {
            Some(tick) if self.may_close() && tick > self.tick => {
                self.tick = tick;
                self.part = 0;
                self.place = 0;
                self.answers = 0;
                true
            }
            _ => false,
        }
    }

    // Whether a line of a tick comes behind the last one; it is the last one then.
    fn follows(&mut self, part: u8, place: u64) -> bool {
        let behind = part > self.part || (part == self.part && place > self.place);
        if !behind || (part > 1 && self.tick == 0) {
            return false;
        }
        self.part = part;
        self.place = place;
        true
    }

    fn answer(&mut self, rest: &str) -> bool {
        let Some((op, reply)) = rest.split_once(' ') else {
            return false;
        };
        let Some(op) = number(op) else {
            return false;
        };
        if !is_reply(reply) || self.answers == 64 || !self.follows(2, op.saturating_add(1)) {
            return false;
        }
        self.answers = self.answers.saturating_add(1);
        true
    }

    // A panel that the site has has a counter.
    fn busy(&mut self, panel: &str, count: &str) -> bool {
        match (number(panel), number(count)) {
            (Some(number), Some(count)) if self.has_panel(panel) && 0 < count => {
                self.follows(3, number)
            }
            _ => false,
        }
    }

    fn has_panel(&self, panel: &str) -> bool {
        for slot in &self.slots {
            if slot.words.strip_suffix(" counter") == Some(panel) {
                return true;
            }
        }
        false
    }

    fn change(&mut self, words: &str, state: &'a str) -> bool {
        let place = self.place_of(words);
        match self.slots.get(place) {
            Some(slot) if slot.state != state && is_state(words, state) => {}
            _ => return false,
        }
        if !self.follows(1, (place as u64).saturating_add(1)) {
            return false;
        }
        if let Some(slot) = self.slots.get_mut(place) {
            slot.state = state;
        }
        true
    }

    // The place of what has these words, behind the last one where nothing has.
    fn place_of(&self, words: &str) -> usize {
        for (place, slot) in self.slots.iter().enumerate() {
            if slot.words == words {
                return place;
            }
        }
        self.slots.len()
    }
}

fn slots_of(alloc: Global, panels: &str) -> Result<Vec<Slot>, AllocError> {
    let mut slots = Vec::new(alloc);
    for line in panels.lines() {
        if let Some((words, state)) = line.rsplit_once(' ') {
            slots.push(Slot { words, state })?;
        }
    }
    Ok(slots)
}

/// The first bad line of a text, if it has one.
pub(crate) fn bad_line(alloc: Global, page: &str, text: &str) -> Result<Option<u64>, AllocError> {
    let mut reader = PlainReader::new(alloc, page)?;
    let mut count = 0u64;
    let mut over = false;
    // What stands behind the last line end so far.
    let mut rest: Option<&str> = None;
    for piece in text.split('\n') {
        if let Some(line) = rest {
            count = count.saturating_add(1);
            let stands = if count == 1 {
                page.lines().next() == Some(line)
            } else {
                !over && reader.take(line)
            };
            if !stands {
                return Ok(Some(count));
            }
            over = line.starts_with("end ");
        }
        rest = Some(piece);
    }
    if over && rest == Some("") {
        Ok(None)
    } else {
        Ok(Some(count.saturating_add(1)))
    }
}

// A number as it is written: without sign and without a 0 in front.
fn number(text: &str) -> Option<u64> {
    if text.starts_with('+') || (text.starts_with('0') && text != "0") {
        return None;
    }
    text.parse().ok()
}

fn is_reply(reply: &str) -> bool {
    match reply.strip_prefix("denied needs ") {
        Some(levels) => are_levels(levels),
        None => matches!(reply, "done" | "waiting" | "already" | "store"),
    }
}

fn are_levels(levels: &str) -> bool {
    let Some((needs, has)) = levels.split_once(" has ") else {
        return false;
    };
    match (number(needs), number(has)) {
        (Some(needs), Some(has)) => 2 <= needs && needs <= 4 && has < needs,
        _ => false,
    }
}

fn is_state(words: &str, state: &str) -> bool {
    if words.ends_with(" counter") {
        return match number(state) {
            Some(count) => count <= 999_999,
            None => false,
        };
    }
    if words.ends_with(" buzzer") {
        return state == "off" || state == "fault" || state == "fire";
    }
    state == "on" || state == "off"
}
