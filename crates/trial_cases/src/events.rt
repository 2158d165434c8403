//! What befalls a site, in the words of a record.

ghost use Rattle.std.specs.Prelude.{◌≡◌, IfOk, true};
ghost use Rattle.site_types.specs.Events.{has_event};
ghost use Rattle.site_types.specs.Valid.{IsValid};

use anyhow::{Result, bail};
use record_lines::{Line, LineReader, Step};
use site_types::{Event, Site};

/// The event that a record's line spells.
pub fn event_of(site: &Site, words: &str) -> Result<Event>
    requires { IsValid site.now }
    ensures { IfOk result (λ event. has_event site.now event ≡ true) }
{
    let mut reader = LineReader::new();
    reader.feed(site, b"tick 1\n");
    reader.feed(site, words.as_bytes());
    match reader.feed(site, b"\n").step {
        Step::Line(Line::Event(event)) => Ok(event),
        _ => bail!("no such event: {words}"),
    }
}
