//! A panel by itself, driven tick by tick.

ghost use Rattle.std.specs.Prelude.{IfOk};
ghost use Rattle.site_types.specs.Valid.{IsValid};
ghost use Rattle.driven_node.specs.Nodes.{IsDrivenNode};

use crate::driven_node::DrivenNode;
use anyhow::{Result, bail};
use cause_effect::compile;
use face_text::Face;
use node_inputs::{NodeInput, is_own_event, read_input};
use panel_edges::MemoryDisk;
use panel_node::{Node, Store};
use retained_journal::Journal;
use site_types::{Event, Retained, Site};
use std::alloc::Global;
use tick_units::Tick;

/// How many calls and written bytes the log of a disk has room for.
const MOST_CALLS: usize = 4_000;

const MOST_WRITTEN: usize = 400_000;

/// The digest that the frames of each site carry.
const DIGEST: [u8; 32] = [0; 32];

/// How many ticks, and how many events, a panel is driven through at most.
const MOST: u64 = 1_000_000;

// A panel of a site before its first tick, with nothing retained.
pub(crate) fn opened(alloc: Global, site: Site, panel: u8) -> Result<DrivenNode>
    requires { IsValid site }
    ensures { IfOk result IsDrivenNode }
{
    if panel == 0 || panel > site.panels {
        bail!("a panel that the site hasn't");
    }
    let empty = Vec::new(alloc);
    let fails = Vec::new(alloc);
    let Ok(mut disk) = MemoryDisk::new(alloc, empty, MOST_CALLS, MOST_WRITTEN, fails) else {
        bail!("no memory");
    };
    let Ok((journal, _)) = Journal::open(&mut disk, DIGEST, site.format == 2) else {
        bail!("the journal isn't opened");
    };
    let Ok(plan) = compile(alloc, &site) else {
        bail!("no plan of the markers");
    };
    let Ok(node) = Node::open(alloc, site, plan, DIGEST, panel, &Retained::empty()) else {
        bail!("no memory");
    };
    Ok(DrivenNode {
        node,
        journal,
        disk,
        panel,
        has_begun: false,
        events: 0,
    })
}

// The next tick begins, if the turns of the one before are made.
pub(crate) fn begin(own: &mut DrivenNode) -> Result<()>
    requires { IsDrivenNode own.old }
    ensures { IsDrivenNode own.new }
{
    if own.has_begun {
        bail!("turns aren't made");
    }
    let now = own.node.now().0;
    if now >= MOST {
        bail!("too many ticks");
    }
    own.node.begin(Tick(now + 1));
    own.has_begun = true;
    Ok(())
}

// An event of the panel happens in the tick that has begun; one of another panel is let go.
pub(crate) fn happen(own: &mut DrivenNode, event: &Event) -> Result<()>
    requires { IsDrivenNode own.old }
    ensures { IsDrivenNode own.new }
{
    if !own.has_begun {
        bail!("no tick has begun");
    }
    if own.events >= MOST {
        bail!("too many events");
    }
    if !own.node.site().has_event(event) {
        bail!("an event of another site");
    }
    if is_own_event(own.node.site(), own.panel, event) {
        own.node.event(event);
        own.events += 1;
    }
    Ok(())
}

// Bytes come: whether they are a frame for the panel, which it takes then.
pub(crate) fn receive(own: &mut DrivenNode, bytes: &[u8]) -> bool
    requires { IsDrivenNode own.old }
    ensures { IsDrivenNode own.new }
{
    match read_input(own.node.site(), own.node.digest(), own.panel, bytes) {
        NodeInput::Framed(frame) => {
            own.node.receive(&frame);
            true
        }
        _ => false,
    }
}

// Each seat has its turn in the tick that has begun. Tells what Keep's turn answered.
pub(crate) fn make_turns(own: &mut DrivenNode) -> Result<Store>
    requires { IsDrivenNode own.old }
    ensures { IsDrivenNode own.new }
{
    if !own.has_begun {
        bail!("no tick has begun");
    }
    own.has_begun = false;
    Ok(own.node.turns(&mut own.journal, &mut own.disk))
}

// All that the panel shows.
pub(crate) fn face_of(own: &DrivenNode) -> Face
    requires { IsDrivenNode own.now }
{
    own.node.face()
}
