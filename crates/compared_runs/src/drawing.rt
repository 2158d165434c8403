//! A drawn record at a system with a failing disk, and by the plain program.

ghost use Rattle.site_types.specs.Valid.{IsValid};

use crate::drawn_records::drawn_record;
use crate::pace::Pace;
use crate::played::{Played, by_rules, by_system};
use crate::told::Told;
use anyhow::Result;
use rand_pcg::Pcg32;
use site_types::Site;
use std::alloc::{AllocError, Global};
use trial_cases::below;
use trial_records::blocks_of;

/// What a system told of a drawn record, and what the plain program tells of it.
#[derive(Drop)]
pub struct DrawnRun {
    pub record: String,
    pub played: Played,
    pub plain: Vec<Told>,
}

/// A drawn record at a site, which is given twice, once for the system.
pub fn drawn_run(
    alloc: Global,
    site: &Site,
    twin: Site,
    pace: &Pace,
    draws: &mut Pcg32,
) -> Result<DrawnRun>
    requires site { IsValid site.now }
    requires twin { IsValid twin }
{
    let record = drawn_record(alloc, site, pace, draws)?;
    let blocks = blocks_of(alloc, site, &record)?;
    let fails = drawn_fails(alloc, draws)?;
    let played = by_system(alloc, twin, &blocks, false, fails)?;
    let plain = by_rules(alloc, site, &played.moments)?;
    Ok(DrawnRun {
        record,
        played,
        plain,
    })
}

// Up to eight calls of the disk behind those of the opening. A new journal is mended by calls 5 to 72.
fn drawn_fails(alloc: Global, draws: &mut Pcg32) -> Result<Vec<u64>, AllocError> {
    let mut fails = Vec::new(alloc);
    for _call in 0..below(draws, 9) {
        fails.push(below(draws, 200).saturating_add(5))?;
    }
    Ok(fails)
}
