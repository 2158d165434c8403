//! A record at panels by themselves, with the frames of a ring.

ghost use Rattle.std.specs.Prelude.{IfOk};
ghost use Rattle.driven_node.specs.Nodes.{AreDriven};

use crate::answers::{answers_so_far, note_asked};
use crate::drawn_site::site_of;
use crate::neighbours::neighbours;
use crate::ring_beside::RingBeside;
use crate::words::word_of_sender;
use crate::zones::zones_of_others;
use anyhow::{Result, bail};
use compared_runs::Told;
use driven_node::DrivenNodes;
use face_text::Face;
use std::alloc::Global;
use tick_units::Tick;
use trial_records::Block;

/// What was counted of a run.
#[derive(Clone, Copy, Default)]
pub(crate) struct Counts {
    /// The frames that were handed on.
    pub(crate) frames: u64,
    /// The zones of other panels that were shown, by panel and tick.
    pub(crate) shown: u64,
    /// The operations that were asked for.
    pub(crate) asked: u64,
}

/// The panels of a drawn site, before their first tick.
pub(crate) fn opened_nodes(alloc: Global, panels: u8, text: &str) -> Result<DrivenNodes>
    ensures { IfOk result AreDriven }
{
    let mut nodes = DrivenNodes::new(alloc);
    for _panel in 0..panels {
        nodes.add(alloc, site_of(alloc, text)?)?;
    }
    Ok(nodes)
}

/// What panels by themselves tell, tick by tick.
pub(crate) fn by_nodes(
    alloc: Global,
    panels: u8,
    text: &str,
    blocks: &[Block],
    counts: &mut Counts,
) -> Result<Vec<Told>> {
    let mut nodes = opened_nodes(alloc, panels, text)?;
    let mut ring = RingBeside::new(panels)?;
    let mut asked: Vec<u8> = Vec::new(alloc);
    let mut all = Vec::new(alloc);
    let mut tick: u64 = 0;
    for block in blocks {
        tick = tick.saturating_add(1);
        nodes.begin()?;
        for event in &block.events {
            nodes.happen(event)?;
        }
        note_asked(&mut asked, &block.events)?;
        let frames = play_tick(&mut nodes, &mut ring, panels, Tick(tick))?;
        counts.frames = counts.frames.saturating_add(frames);
        let answers = answers_so_far(alloc, &nodes, &asked)?;
        let faces = faces_of(alloc, &nodes, panels)?;
        for face in &faces {
            counts.shown = counts.shown.saturating_add(zones_of_others(face));
        }
        all.push(Told { faces, answers })?;
    }
    counts.asked = counts.asked.saturating_add(asked.len() as u64);
    Ok(all)
}

// Each panel in turn gets the frames of the ring and has its turns. Tells how many frames were handed on.
fn play_tick(nodes: &mut DrivenNodes, ring: &mut RingBeside, panels: u8, now: Tick) -> Result<u64>
    requires { AreDriven nodes.old }
    ensures { AreDriven nodes.new }
{
    // what a panel made in the tick before shows in its frames of this one
    let before = Tick(now.0.saturating_sub(1));
    for panel in 1..=panels {
        if let Some(word) = word_of_sender(&nodes.frame(panel)?) {
            ring.keep(before, panel, word)?;
        }
    }
    let mut frames: u64 = 0;
    for panel in 1..=panels {
        frames = frames.saturating_add(hand_on_both(nodes, ring, panels, panel, now)?);
        nodes.make_turns(panel)?;
        let own = word_of_sender(&nodes.frame(panel)?);
        ring.turn(now, panel, own)?;
    }
    Ok(frames)
}

// A panel gets the frames of its neighbours. Tells how many these are.
fn hand_on_both(
    nodes: &mut DrivenNodes,
    ring: &RingBeside,
    panels: u8,
    panel: u8,
    now: Tick,
) -> Result<u64>
    requires { AreDriven nodes.old }
    ensures { AreDriven nodes.new }
{
    let Some(both) = neighbours(panels, panel) else {
        return Ok(0);
    };
    hand_on(nodes, ring, both[0], panel, now)?;
    hand_on(nodes, ring, both[1], panel, now)?;
    Ok(2)
}

// The frame of the ring, which is that of the panel itself.
fn hand_on(nodes: &mut DrivenNodes, ring: &RingBeside, from: u8, at: u8, now: Tick) -> Result<()>
    requires { AreDriven nodes.old }
    ensures { AreDriven nodes.new }
{
    let frame = ring.frame(from, now)?;
    if nodes.frame(from)? != frame {
        bail!(
            "tick {}: panel {from} hands out another frame than the ring",
            now.0
        );
    }
    if !nodes.hand(at, &frame)? {
        bail!("tick {}: panel {at} refuses a frame of panel {from}", now.0);
    }
    Ok(())
}

// What each panel shows.
fn faces_of(alloc: Global, nodes: &DrivenNodes, panels: u8) -> Result<Vec<Face>>
    requires { AreDriven nodes.now }
{
    let mut faces = Vec::new(alloc);
    for panel in 1..=panels {
        faces.push(nodes.face(panel)?)?;
    }
    Ok(faces)
}
