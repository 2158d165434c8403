use crate::writing::sink_of;
use anyhow::{Result, bail};
use face_text::{Face, write_changes};
use site_types::Site;
use std::alloc::Global;

/// What a panel shows otherwise than before, its lines on one line with `, ` between them.
pub fn changes_of(alloc: Global, site: &Site, before: &Face, after: &Face) -> Result<String> {
    let mut out = sink_of(alloc)?;
    if write_changes(site, before, after, &mut out).is_err() {
        bail!("a change longer than its room");
    }
    let text = String::from_utf8(out.bytes)?;
    Ok(text.trim_end().replace(alloc, "\n", ", ")?)
}
