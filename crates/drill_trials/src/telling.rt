//! The site file and the lines of drills.

ghost use Rattle.std.specs.Prelude.{◌≤◌, IfOk};
ghost use Rattle.panel_drill.specs.Running.{most_ticks};
ghost use Rattle.site_types.specs.Valid.{IsValid};

use anyhow::{Result, bail};
use cause_effect::compile;
use drill_site::drill_file;
use panel_drill::{MOST_TICKS, drill};
use site_config::read_site;
use site_types::{Site, site_digest};
use std::alloc::Global;
use trial_cases::{Case, Lines};

/// A seed and a number of ticks.
#[derive(Clone, Copy)]
pub(crate) struct Length {
    pub(crate) seed: u64,
    pub(crate) ticks: u64,
}

/// The seed and the ticks of a case.
pub(crate) fn length_of(case: &Case) -> Result<Length>
    ensures { IfOk result (λ length. length.ticks ≤ most_ticks) }
{
    let seed = case.subject.parse::<u64>()?;
    let ticks = case.rest.parse::<u64>()?;
    if ticks > MOST_TICKS {
        bail!("too many ticks");
    }
    Ok(Length { seed, ticks })
}

/// The line of a drill.
pub(crate) fn line_of(alloc: Global, length: Length) -> Result<String>
    requires { length.ticks ≤ most_ticks }
{
    let text = file_of(alloc)?;
    let site = site_of(alloc, text.as_slice())?;
    let Ok(plan) = compile(alloc, &site) else {
        bail!("no plan of the markers");
    };
    let digest = site_digest(text.as_slice());
    match drill(alloc, site, plan, digest, length.seed, length.ticks) {
        Ok(line) => Ok(String::from_str(alloc, line.as_str())?),
        Err(_) => bail!("no memory"),
    }
}

/// The line of a case.
pub(crate) fn say_line(alloc: Global, case: &Case) -> Result<String> {
    let line = line_of(alloc, length_of(case)?)?;
    let mut lines = Lines::new(alloc);
    lines.say("    ");
    lines.say(line.as_str());
    lines.done()
}

/// The site file of a drill.
pub(crate) fn file_of(alloc: Global) -> Result<Vec<u8>> {
    match drill_file(alloc) {
        Ok(text) => Ok(text),
        Err(_) => bail!("no memory"),
    }
}

/// The site that it spells.
pub(crate) fn site_of(alloc: Global, text: &[u8]) -> Result<Site>
    ensures { IfOk result IsValid }
{
    match read_site(alloc, text) {
        Ok(site) => Ok(site),
        Err(_) => bail!("the file is refused"),
    }
}

/// The file and the counts of its site.
pub(crate) fn say_file(alloc: Global) -> Result<String> {
    let text = file_of(alloc)?;
    let site = site_of(alloc, text.as_slice())?;
    let mut lines = Lines::new(alloc);
    lines.count("    bytes ", text.len() as u64);
    lines.say("\n    digest ");
    lines.hex(&site_digest(text.as_slice()));
    lines.count("\n    panels ", site.panels as u64);
    lines.count(" points ", site.points.len() as u64);
    lines.count(" zones ", site.zones.len() as u64);
    lines.count(" outputs ", site.outputs.len() as u64);
    lines.count(" markers ", site.markers.len() as u64);
    lines.say("\n");
    lines.done()
}
