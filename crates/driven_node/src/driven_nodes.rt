ghost use Rattle.std.specs.Prelude.{◌<◌, IfOk, length};
ghost use Rattle.site_types.specs.Valid.{IsValid};
ghost use Rattle.driven_node.specs.Nodes.{AreDriven};

use crate::driven_node::DrivenNode;
use crate::driving::{begin, face_of, happen, make_turns, opened, receive};
use anyhow::{Result, bail};
use arrayvec::ArrayVec;
use face_text::Face;
use panel_frames::print_frame;
use panel_links::Frame;
use panel_node::Store;
use site_types::{Event, Site};
use std::alloc::Global;

/// All panels of a site, each by itself, driven tick by tick.
#[derive(Drop)]
pub struct DrivenNodes {
    /// By panel, panel 1 being the first.
    pub nodes: Vec<DrivenNode>,
}

impl DrivenNodes {
    /// None yet.
    pub fn new(alloc: Global) -> DrivenNodes
        ensures { AreDriven result }
    {
        DrivenNodes {
            nodes: Vec::new(alloc),
        }
    }

    /// The next panel of a site, before its first tick and with nothing retained.
    pub fn add(&mut self, alloc: Global, site: Site) -> Result<()>
        requires driven { AreDriven self.old }
        requires site { IsValid site }
        ensures { AreDriven self.new }
    {
        let panel = self.nodes.len().saturating_add(1).min(255) as u8;
        let own = opened(alloc, site, panel)?;
        self.nodes.push(own)?;
        Ok(())
    }

    /// The next tick begins at each panel.
    pub fn begin(&mut self) -> Result<()>
        requires { AreDriven self.old }
        ensures { AreDriven self.new }
    {
        for place in 0..self.nodes.len() {
            begin(&mut self.nodes[place])?;
        }
        Ok(())
    }

    /// An event happens at the panel whose own it is; one that is no panel's is let go.
    pub fn happen(&mut self, event: &Event) -> Result<()>
        requires { AreDriven self.old }
        ensures { AreDriven self.new }
    {
        for place in 0..self.nodes.len() {
            happen(&mut self.nodes[place], event)?;
        }
        Ok(())
    }

    /// The bytes of a frame come to a panel: whether it takes them.
    pub fn hand(&mut self, panel: u8, frame: &Frame) -> Result<bool>
        requires { AreDriven self.old }
        ensures { AreDriven self.new }
    {
        let place = self.place_of(panel)?;
        let mut bytes = ArrayVec::new();
        print_frame(self.nodes[place].node.digest(), frame, &mut bytes);
        Ok(receive(&mut self.nodes[place], bytes.as_slice()))
    }

    /// Each seat has its turn at a panel, in the tick that has begun there. Tells what Keep's turn answered.
    pub fn make_turns(&mut self, panel: u8) -> Result<Store>
        requires { AreDriven self.old }
        ensures { AreDriven self.new }
    {
        let place = self.place_of(panel)?;
        make_turns(&mut self.nodes[place])
    }

    /// All that a panel shows.
    pub fn face(&self, panel: u8) -> Result<Face>
        requires { AreDriven self.now }
    {
        let place = self.place_of(panel)?;
        Ok(face_of(&self.nodes[place]))
    }

    /// What a panel hands to its neighbours now.
    pub fn frame(&self, panel: u8) -> Result<Frame> {
        let place = self.place_of(panel)?;
        Ok(self.nodes[place].node.frame())
    }

    // The place of a panel that is there.
    fn place_of(&self, panel: u8) -> Result<usize>
        ensures { IfOk result (λ place. place < length self.now.nodes.items) }
    {
        if panel == 0 || panel as usize > self.nodes.len() {
            bail!("a panel that the site hasn't");
        }
        Ok(panel as usize - 1)
    }
}
