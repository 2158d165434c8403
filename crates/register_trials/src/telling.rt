//! What a call answers, in words.

use register_import::ImportRefusal;
use service_register::RegisterRefusal;
use site_types::Site;
use trial_cases::{Lines, say_point};

/// Why a call is refused.
pub(crate) fn say_refusal(lines: &mut Lines, refusal: RegisterRefusal) {
    match refusal {
        RegisterRefusal::NoSuchPoint => lines.say("no such point"),
        RegisterRefusal::Differs(kept) => {
            lines.count("differs from ", kept.number as u64);
            lines.count(" ", kept.day as u64);
            lines.say(" ");
            lines.say(kept.engineer.as_str());
        }
        RegisterRefusal::NoSuchVisit => lines.say("no such visit"),
        RegisterRefusal::KeeperFault => lines.say("keeper fault"),
        RegisterRefusal::NoMemory => lines.say("no memory"),
    }
}

/// Why a file isn't imported.
pub(crate) fn say_import_refusal(lines: &mut Lines, refusal: ImportRefusal) {
    match refusal {
        ImportRefusal::Row { row, why } => {
            lines.count("refused row ", row);
            lines.count(" ", why as u64);
        }
        ImportRefusal::KeeperFault => lines.say("keeper fault"),
        ImportRefusal::NoMemory => lines.say("no memory"),
    }
}

/// The points at some places, or `none`.
pub(crate) fn say_points(lines: &mut Lines, site: &Site, places: &[u16]) {
    if places.is_empty() {
        lines.say("none");
    }
    let mut space = "";
    for place in places {
        lines.say(space);
        say_point(lines, site, *place);
        space = " ";
    }
}

/// A table, each row on a line of its own.
pub(crate) fn say_table(lines: &mut Lines, table: &[u8]) {
    match str::from_utf8(table) {
        Ok(text) => {
            lines.say("table");
            for row in text.lines() {
                lines.say("\n        ");
                lines.say(row);
            }
        }
        Err(_) => lines.say("no text"),
    }
}
