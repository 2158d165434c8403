//! Texts read back.

ghost use Rattle.site_types.specs.Valid.{IsValid};

use anyhow::{Result, bail};
use face_reading::{TextRefusal, read_faces};
use site_types::Site;
use std::alloc::Global;
use std::fs;
use timeline_text::text_of;
use trial_cases::{Lines, Words, site_at};

/// The words name a site and a text.
pub(crate) fn read_file(rt: &HostRuntime, mut words: Words) -> Result<String> {
    let site = site_at(rt, words.next())?;
    let text = fs::read_to_string(rt, words.next())?;
    read_back(rt.alloc(), &site, text.as_str())
}

/// The words name a site, and then are a text in quotation marks, with bars for line ends.
pub(crate) fn read_bars(rt: &HostRuntime, mut words: Words) -> Result<String> {
    let site = site_at(rt, words.next())?;
    let bars = words.rest().trim_matches('"');
    let text = bars.replace(rt.alloc(), "|", "\n")?;
    read_back(rt.alloc(), &site, text.as_str())
}

// Reads a text, and tells whether it is written again as it stands, or the number of its first bad line.
fn read_back(alloc: Global, site: &Site, text: &str) -> Result<String>
    requires { IsValid site.now }
{
    let mut lines = Lines::new(alloc);
    match read_faces(alloc, site, text.as_bytes()) {
        Ok(timeline) => {
            let written = text_of(alloc, site, &timeline)?;
            if written.as_str() == text {
                lines.say("written again as it stands");
            } else {
                lines.say("written otherwise\n");
                lines.say(&written);
            }
        }
        Err(TextRefusal::BadLine(line)) => lines.count("bad line ", line),
        Err(TextRefusal::NoMemory) => bail!("no memory"),
    }
    lines.say("\n");
    lines.done()
}
