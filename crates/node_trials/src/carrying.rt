//! A record at panels by themselves with a carrier between them.

ghost use Rattle.driven_node.specs.Nodes.{AreDriven};

use crate::carried::Carried;
use crate::carrier::Carrier;
use crate::drawn::Drawn;
use crate::neighbours::{are_neighbours, neighbours};
use crate::notes::Notes;
use crate::played::opened_nodes;
use crate::posted::Posted;
use crate::zones::zones_of_others;
use anyhow::{Result, bail};
use driven_node::DrivenNodes;
use rand_pcg::Pcg32;
use std::alloc::Global;
use trial_cases::below;
use trial_records::Block;

/// Plays a record with a carrier: the tick in which a panel shows other zones than those of the newest words
/// that came to it, if any.
pub(crate) fn with_carrier(
    alloc: Global,
    panels: u8,
    drawn: &Drawn,
    draws: &mut Pcg32,
    carried: &mut Carried,
) -> Result<Option<u64>> {
    let mut nodes = opened_nodes(alloc, panels, &drawn.text)?;
    let mut carrier = Carrier::new(alloc);
    let mut notes = Notes::new(alloc);
    let mut tick: u64 = 0;
    for block in &drawn.blocks {
        tick = tick.saturating_add(1);
        begin(&mut nodes, block)?;
        let due = carrier.due(alloc, tick)?;
        bring_all(&mut nodes, panels, &due, &mut notes, carried)?;
        if !turn_all(&mut nodes, panels, &notes, carried)? {
            return Ok(Some(tick));
        }
        post_all(&nodes, panels, tick, &mut carrier, &mut notes, draws)?;
    }
    carried.ticks = carried.ticks.saturating_add(tick);
    carried.lost = carried.lost.saturating_add(carrier.lost);
    carried.doubled = carried.doubled.saturating_add(carrier.doubled);
    carried.delayed = carried.delayed.saturating_add(carrier.delayed);
    carried.turned = carried.turned.saturating_add(carrier.turned);
    Ok(None)
}

// The next tick begins at each panel, with its events.
fn begin(nodes: &mut DrivenNodes, block: &Block) -> Result<()>
    requires { AreDriven nodes.old }
    ensures { AreDriven nodes.new }
{
    nodes.begin()?;
    for event in &block.events {
        nodes.happen(event)?;
    }
    Ok(())
}

// Frames come.
fn bring_all(
    nodes: &mut DrivenNodes,
    panels: u8,
    due: &[Posted],
    notes: &mut Notes,
    carried: &mut Carried,
) -> Result<()>
    requires { AreDriven nodes.old }
    ensures { AreDriven nodes.new }
{
    for posted in due {
        bring(nodes, panels, posted, notes, carried)?;
    }
    Ok(())
}

// Each panel has its turns: whether all show the zones of the newest words that came to them.
fn turn_all(
    nodes: &mut DrivenNodes,
    panels: u8,
    notes: &Notes,
    carried: &mut Carried,
) -> Result<bool>
    requires { AreDriven nodes.old }
    ensures { AreDriven nodes.new }
{
    for panel in 1..=panels {
        nodes.make_turns(panel)?;
        let face = nodes.face(panel)?;
        if !notes.explain(&face) {
            return Ok(false);
        }
        carried.shown = carried.shown.saturating_add(zones_of_others(&face));
    }
    Ok(true)
}

// A frame comes. A panel takes those of its neighbours, and no other.
fn bring(
    nodes: &mut DrivenNodes,
    panels: u8,
    posted: &Posted,
    notes: &mut Notes,
    carried: &mut Carried,
) -> Result<()>
    requires { AreDriven nodes.old }
    ensures { AreDriven nodes.new }
{
    let at = posted.at;
    let from = posted.frame.from;
    let is_taken = nodes.hand(at, &posted.frame)?;
    if is_taken != are_neighbours(panels, at, from) {
        bail!("panel {at} takes a frame of panel {from} otherwise than it should");
    }
    if is_taken {
        notes.note_came(at, &posted.frame)?;
        carried.taken = carried.taken.saturating_add(1);
    } else {
        carried.strayed = carried.strayed.saturating_add(1);
    }
    Ok(())
}

// Each panel hands out its frame to its neighbours, and now and then one strays to whatever panel.
fn post_all(
    nodes: &DrivenNodes,
    panels: u8,
    now: u64,
    carrier: &mut Carrier,
    notes: &mut Notes,
    draws: &mut Pcg32,
) -> Result<()>
    requires { AreDriven nodes.now }
{
    for panel in 1..=panels {
        let frame = nodes.frame(panel)?;
        notes.note_made(&frame, &nodes.face(panel)?)?;
        if let Some(others) = neighbours(panels, panel) {
            for at in others {
                carrier.post(&frame, at, now, draws)?;
            }
        }
        if below(draws, 16) == 0 {
            let at = below(draws, panels as u64).saturating_add(1).min(255) as u8;
            carrier.post(&frame, at, now, draws)?;
        }
    }
    Ok(())
}
