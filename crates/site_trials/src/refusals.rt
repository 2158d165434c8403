//! What the reader says of a site file, in the words of the program's `check`.

use anyhow::Result;
use site_config::{SiteRefusal, read_site};
use site_types::Site;
use std::alloc::Global;
use trial_cases::Lines;

/// Whether a text is a site, with its counts or the refusal.
pub fn checked(alloc: Global, text: &str) -> Result<String> {
    let mut lines = Lines::new(alloc);
    match read_site(alloc, text.as_bytes()) {
        Ok(site) => say_counts(&mut lines, &site),
        Err(refusal) => say_refusal(&mut lines, &refusal),
    }
    lines.done()
}

fn say_counts(lines: &mut Lines, site: &Site) {
    lines.count("ok panels ", site.panels as u64);
    lines.count(" points ", site.points.len() as u64);
    lines.count(" zones ", site.zones.len() as u64);
    lines.count(" outputs ", site.outputs.len() as u64);
    lines.count(" markers ", site.markers.len() as u64);
}

fn say_refusal(lines: &mut Lines, refusal: &SiteRefusal) {
    lines.say("refused site ");
    match refusal {
        SiteRefusal::NotToml => lines.say("1"),
        SiteRefusal::TooLong => lines.say("10"),
        SiteRefusal::Missing(key) => say_named(lines, "2 ", key.as_str()),
        SiteRefusal::WrongKind(key) => say_named(lines, "3 ", key.as_str()),
        SiteRefusal::Unknown(key) => say_named(lines, "4 ", key.as_str()),
        SiteRefusal::OutOfRange(key, number) => {
            say_named(lines, "5 ", key.as_str());
            lines.say(" ");
            lines.signed(*number);
        }
        SiteRefusal::Twice(name) => say_named(lines, "6 ", name.as_str()),
        SiteRefusal::NoSuch(name) => say_named(lines, "7 ", name.as_str()),
        SiteRefusal::SectionCrossesZones { panel, line, place } => {
            lines.count("8 ", *panel as u64);
            lines.count(" ", *line as u64);
            lines.count(" ", *place as u64);
        }
        SiteRefusal::PartnerNotMutual(name) => say_named(lines, "9 ", name.as_str()),
        SiteRefusal::NoMemory => lines.say("for want of memory"),
    }
}

fn say_named(lines: &mut Lines, number: &str, name: &str) {
    lines.say(number);
    lines.say(name);
}
