//! Numbers, names, codes and digests of texts, and the numbers of a format.

use anyhow::Result;
use site_types::{Label, Profile, read_code, read_name, read_number, site_digest};
use std::alloc::Global;
use trial_cases::{Lines, Words};

/// The number that a text in quotation marks spells.
pub(crate) fn number(alloc: Global, text: &str) -> Result<String> {
    let mut lines = Lines::new(alloc);
    match read_number(text.trim_matches('"').as_bytes()) {
        Some(number) => lines.count("    ", number),
        None => lines.say("    none"),
    }
    lines.say("\n");
    lines.done()
}

/// The name and the code that a text in quotation marks spells.
pub(crate) fn name(alloc: Global, text: &str) -> Result<String> {
    let bytes = text.trim_matches('"').as_bytes();
    let mut lines = Lines::new(alloc);
    say_label(&mut lines, "    name ", read_name(bytes));
    say_label(&mut lines, ", code ", read_code(bytes));
    lines.say("\n");
    lines.done()
}

fn say_label(lines: &mut Lines, words: &str, label: Option<Label>) {
    lines.say(words);
    match label {
        Some(label) => lines.say(label.as_str()),
        None => lines.say("none"),
    }
}

/// Numbers of a format.
pub(crate) fn profile(alloc: Global, mut words: Words) -> Result<String> {
    let profile = Profile::of(words.byte()?);
    let mut lines = Lines::new(alloc);
    lines.count("    round ", profile.round());
    lines.count(", signal ", profile.signal());
    lines.count(", charger ", profile.greatest_charger_wait());
    lines.count(", standby ", profile.greatest_standby_wait());
    lines.count(", last address ", profile.last_address());
    lines.say("\n");
    lines.done()
}

/// The digest of a text.
pub(crate) fn digest(alloc: Global, text: &str) -> Result<String> {
    let mut lines = Lines::new(alloc);
    lines.say("    ");
    lines.hex(&site_digest(text.as_bytes()));
    lines.say("\n");
    lines.done()
}
