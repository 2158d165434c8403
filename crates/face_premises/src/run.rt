use crate::asked::{Asked, all_asked, all_done};
use crate::counters::note_counters;
use crate::faults::note_faults;
use crate::outputs::note_outputs;
use crate::settings::note_settings;
use crate::signals::{point_signals, settled_table};
use crate::tally::Tally;
use crate::tracks::{NEVER, track};
use crate::wanted::Wanted;
use crate::zones::note_zones;
use anyhow::Result;
use compared_runs::{Played, Told};
use face_text::Face;
use plain_history::{Done, Moment, Settings};
use site_types::{Event, Retained, Site};
use std::alloc::Global;

/// A run as the counts look at it.
#[derive(Drop)]
pub(crate) struct Run<'a> {
    pub(crate) site: &'a Site,
    pub(crate) moments: &'a [Moment],
    pub(crate) told: &'a [Told],
    pub(crate) asked: Vec<Asked>,
    pub(crate) done: Vec<Done>,
    pub(crate) kept: Retained,
    /// Whether all links were up, tick by tick.
    pub(crate) joined: Vec<bool>,
    /// The last tick.
    pub(crate) last: u64,
}

/// Notes of a run of a site that began with nothing kept what held in it.
pub fn note_run(alloc: Global, site: &Site, played: &Played, tally: &mut Tally) -> Result<()> {
    let last = played.told.len() as u64;
    let asked = all_asked(alloc, &played.moments, &played.told)?;
    let run = Run {
        site,
        moments: &played.moments,
        told: &played.told,
        done: all_done(alloc, &asked, last)?,
        asked,
        kept: Retained::empty(),
        joined: all_up(alloc, &played.moments)?,
        last,
    };
    let signals = point_signals(alloc, &run)?;
    let shown = settled_table(alloc, &run, &signals, Wanted::Shown)?;
    note_zones(&run, &signals, &shown, tally);
    let out = settled_table(alloc, &run, &signals, Wanted::Out)?;
    let by_hand = settled_table(alloc, &run, &signals, Wanted::ByHand)?;
    note_outputs(alloc, &run, &out, &by_hand, tally)?;
    note_faults(alloc, &run, tally)?;
    note_settings(&run, tally);
    note_counters(&run, tally);
    Ok(())
}

// Whether no link was ever reported down so far, tick by tick.
fn all_up(alloc: Global, moments: &[Moment]) -> Result<Vec<bool>> {
    track(alloc, moments, true, |event| match *event {
        Event::Link { up: false, .. } => Some(false),
        _ => None,
    })
}

impl Run<'_> {
    pub(crate) fn settings(&self) -> Settings {
        Settings {
            site: self.site,
            kept: &self.kept,
            done: self.done.as_slice(),
        }
    }

    /// What a panel showed at the end of a tick.
    pub(crate) fn face(&self, tick: u64, panel: u8) -> Face {
        let place = tick.saturating_sub(1) as usize;
        match self.told.get(place) {
            Some(told) => match told.faces.get(panel.saturating_sub(1) as usize) {
                Some(face) => *face,
                None => Face::empty(panel),
            },
            None => Face::empty(panel),
        }
    }
}

/// The entry of a table by zone and tick.
pub(crate) fn entry(table: &[Vec<u64>], zone: usize, tick: u64) -> u64 {
    match table.get(zone) {
        Some(ticks) => match ticks.get(tick as usize) {
            Some(settled) => *settled,
            None => NEVER,
        },
        None => NEVER,
    }
}
