ghost use Rattle.std.specs.Prelude.{◌≡◌, ◌≤◌, IfOk};
ghost use Rattle.panel_links.specs.Stands.{HasPanel};

use anyhow::{Result, bail};
use panel_links::{Frame, Ring};
use site_types::Word;
use tick_units::Tick;

/// A ring with all links up, which is told of the words that panels by themselves make.
#[derive(Drop)]
pub(crate) struct RingBeside {
    ring: Ring,
    panels: u8,
    ghost same: { ring.panels ≡ panels },
}

impl RingBeside {
    pub(crate) fn new(panels: u8) -> Result<RingBeside> {
        if panels == 0 || panels > 8 {
            bail!("no ring has so many panels");
        }
        let ring = Ring::new(panels);
        Ok(RingBeside { ring, panels })
    }

    /// The frame that a panel would hand over a link.
    pub(crate) fn frame(&self, from: u8, now: Tick) -> Result<Frame> {
        let from = self.tested(from)?;
        Ok(self.ring.frame(from, now))
    }

    /// A panel has made this word since its turn of Link, and takes nothing over.
    pub(crate) fn keep(&mut self, now: Tick, panel: u8, own: Word) -> Result<()> {
        let panel = self.tested(panel)?;
        for link in 1..9 {
            self.ring.set_link(link, false);
        }
        self.ring.turn(now, panel, own);
        for link in 1..9 {
            self.ring.set_link(link, true);
        }
        Ok(())
    }

    /// A panel has its turn of Link with this word; with none, with the one that is kept.
    pub(crate) fn turn(&mut self, now: Tick, panel: u8, own: Option<Word>) -> Result<()> {
        let panel = self.tested(panel)?;
        let own = own.unwrap_or(self.ring.word(panel, panel));
        self.ring.turn(now, panel, own);
        Ok(())
    }

    fn tested(&self, panel: u8) -> Result<u8>
        ensures { IfOk result (HasPanel self.now.ring) }
    {
        if panel == 0 || panel > self.panels {
            bail!("a panel that the ring hasn't");
        }
        Ok(panel)
    }
}
