//! What each level may do.

ghost use Rattle.site_types.specs.Valid.{IsValid};

use access_levels::{Denied, allowed};
use anyhow::{Result, bail};
use site_types::{Event, Operation, Site};
use std::alloc::Global;
use trial_cases::{Lines, event_of};

/// What each level, 1 to 4, is answered to an operation of a record's line.
pub(crate) fn allow(alloc: Global, site: &Site, line: &str) -> Result<String>
    requires { IsValid site.now }
{
    match event_of(site, line)? {
        Event::Op { operation, .. } => say_levels(alloc, &operation),
        _ => bail!("no operation: {line}"),
    }
}

fn say_levels(alloc: Global, operation: &Operation) -> Result<String> {
    let mut lines = Lines::new(alloc);
    for level in 1..5 {
        lines.count("    level ", level as u64);
        match allowed(operation, level) {
            Ok(()) => lines.say(": allowed"),
            Err(Denied { needs, has }) => {
                lines.count(": denied, needs ", needs as u64);
                lines.count(" has ", has as u64);
            }
        }
        lines.say("\n");
    }
    lines.done()
}
