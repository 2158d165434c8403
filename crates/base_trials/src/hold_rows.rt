//! What comes to a Hold in a tick: `found 13 1 1` is a finding of a stamp that counts for zones and confirms zones,
//! masks of these, and `silent 13` one of a point that is missing; `supplies 1` and `shorts 1` are the masks that are
//! told from now on of supplies and loops; any other step is the line of a record for an operation.

ghost use Rattle.std.specs.Prelude.{◌≡◌, ◌≤◌, IfOk};
ghost use Rattle.site_types.specs.Valid.{IsValid};

use answer_lanes::{FindingBlock, Lane};
use anyhow::{Result, bail};
use panel_conditions::{Finding, Hold, Outside};
use site_types::{Event, Operation, Site};
use std::alloc::Global;
use tick_units::Tick;
use trial_cases::{History, Words, event_of};

/// The findings of a tick.
pub(crate) fn findings_at(alloc: Global, history: &History, tick: u64) -> Result<Lane<FindingBlock>>
    ensures { IfOk result (λ lane. lane.quota ≤ 32) }
{
    let Ok(mut lane) = Lane::new(alloc, 32, 64) else {
        bail!("no memory");
    };
    for step in history.steps.iter() {
        if step.tick == tick {
            if let Some(finding) = finding_of(Words::of(step.words))? {
                put(&mut lane, finding)?;
            }
        }
    }
    Ok(lane)
}

fn finding_of(mut words: Words) -> Result<Option<Finding>> {
    match words.next() {
        "found" => Ok(Some(found(words)?)),
        "silent" => Ok(Some(Finding {
            stamp: Tick(words.number()?),
            missing: true,
            ..Finding::default()
        })),
        _ => Ok(None),
    }
}

fn found(mut words: Words) -> Result<Finding> {
    Ok(Finding {
        stamp: Tick(words.number()?),
        counted: words.place()? as u32,
        confirmed: words.place()? as u32,
        ..Finding::default()
    })
}

fn put(lane: &mut Lane<FindingBlock>, finding: Finding) -> Result<()>
    requires { (lane.old.quota ≡ 32) × (lane.old.capacity ≡ 64) }
    ensures { (lane.new.quota ≡ 32) × (lane.new.capacity ≡ 64) }
{
    if lane.len() >= 32 || lane.put_count() >= 1000 {
        bail!("more than 32 findings");
    }
    lane.put(finding);
    Ok(())
}

/// What is told from outside of the points from a tick on.
pub(crate) fn outside_at(history: &History, tick: u64, before: Outside) -> Result<Outside> {
    let mut outside = before;
    for step in history.steps.iter() {
        if step.tick == tick {
            if let Some(mask) = mask_of(step.words, "supplies ")? {
                outside.supply = mask;
            }
            if let Some(mask) = mask_of(step.words, "shorts ")? {
                outside.shorted = mask;
            }
        }
    }
    Ok(outside)
}

// The mask that a step tells of what is named.
fn mask_of(step: &str, name: &str) -> Result<Option<u8>> {
    match step.strip_prefix(name) {
        Some(mask) => Ok(Some(mask.parse::<u8>()?)),
        None => Ok(None),
    }
}

/// Does the operations of a tick.
pub(crate) fn apply_at(site: &Site, history: &History, tick: u64, hold: &mut Hold) -> Result<()>
    requires { IsValid site.now }
{
    for step in history.steps.iter() {
        if step.tick == tick {
            if let Some(operation) = operation_of(site, step.words)? {
                hold.apply(&operation, Tick(tick));
            }
        }
    }
    Ok(())
}

fn operation_of(site: &Site, words: &str) -> Result<Option<Operation>>
    requires { IsValid site.now }
{
    match Words::of(words).next() {
        "found" | "silent" | "supplies" | "shorts" => Ok(None),
        _ => match event_of(site, words)? {
            Event::Op { operation, .. } => Ok(Some(operation)),
            _ => bail!("nothing that comes to Hold: {words}"),
        },
    }
}
