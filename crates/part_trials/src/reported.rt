//! What befalls the points of panel 1 in a history, and what is done.

ghost use Rattle.site_types.specs.Valid.{IsValid};

use anyhow::{Result, bail};
use site_types::{Event, Site};
use std::alloc::Global;
use trial_base::{DoneAt, Report};
use trial_cases::{History, event_of};

/// The reports on points and the operations of a history, each in its order.
#[derive(Drop)]
pub(crate) struct Reported {
    pub(crate) reports: Vec<Report>,
    pub(crate) done: Vec<DoneAt>,
}

impl Reported {
    pub(crate) fn read(alloc: Global, site: &Site, history: &History) -> Result<Reported>
        requires { IsValid site.now }
    {
        let mut reports = Vec::new(alloc);
        let mut done = Vec::new(alloc);
        for step in &history.steps {
            let tick = step.tick;
            match event_of(site, step.words)? {
                Event::Point { point, state } => reports.push(Report { tick, point, state })?,
                Event::Op { operation, .. } => done.push(DoneAt { tick, operation })?,
                _ => bail!("nothing that befalls Decide: {}", step.words),
            }
        }
        Ok(Reported { reports, done })
    }
}
