//! Sites from their files.

ghost use Rattle.std.specs.Prelude.{IfOk};
ghost use Rattle.site_types.specs.Valid.{IsValid};

use anyhow::{Context, Result, bail};
use site_config::read_site;
use site_types::Site;
use std::fs;
use std::rt::Files;

/// The site that a file spells.
pub fn site_at<R: Files + AllocGlobal>(rt: &R, name: &str) -> Result<Site>
    ensures { IfOk result IsValid }
{
    let text = fs::read_to_string(rt, name).context(format_args!("reading {name}"))?;
    match read_site(rt.alloc(), text.as_bytes()) {
        Ok(site) => Ok(site),
        Err(_) => bail!("{name} is no site"),
    }
}
