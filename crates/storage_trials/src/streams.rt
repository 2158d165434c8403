//! Streams in memory.

use anyhow::Result;
use panel_edges::{MemorySink, MemorySource, SoundMemorySink, SoundMemorySource};
use std::alloc::Global;
use trial_cases::{Lines, Words};

/// Whether each stream is made. The word is the room of a sink.
pub(crate) fn make_streams(alloc: Global, mut words: Words) -> Result<String> {
    let room = words.place()? as usize;
    let source = MemorySource::new(alloc, Vec::new(alloc), Vec::new(alloc)).is_ok();
    let sound_source = SoundMemorySource::new(alloc, Vec::new(alloc)).is_ok();
    let sink = MemorySink::new(alloc, room, Vec::new(alloc)).is_ok();
    let sound_sink = SoundMemorySink::new(alloc, room).is_ok();
    let mut lines = Lines::new(alloc);
    say_made(&mut lines, "source", source);
    say_made(&mut lines, "sound source", sound_source);
    say_made(&mut lines, "sink", sink);
    say_made(&mut lines, "sound sink", sound_sink);
    lines.done()
}

fn say_made(lines: &mut Lines, name: &str, is_made: bool) {
    lines.say("    ");
    lines.say(name);
    lines.say(if is_made { " made\n" } else { " not made\n" });
}
