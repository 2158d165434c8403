//! A panel by itself before its first tick.

ghost use Rattle.std.specs.Prelude.{◌≡◌, [], IfOk};
ghost use Rattle.node_desk.specs.Runs.{HasTicks, RunsFor};
ghost use Rattle.panel_parts.specs.Stands.{HasPlan};
ghost use Rattle.panel_rules.specs.Moments.{IsPanel};
ghost use Rattle.site_run.specs.Journals.{IsOpenFor};
ghost use Rattle.site_types.specs.Valid.{IsValid};

use crate::node_run::NodeRun;
use cause_effect::Plan;
use face_text::Starts;
use panel_edges::{NoMemory, SoundMemorySink};
use panel_node::Node;
use retained_journal::Journal;
use site_run::{PAGE_BYTES, note_sized};
use site_types::Site;
use std::alloc::Global;

impl NodeRun {
    /// A panel of a site, with the digest of the site's file and the journal that was opened for it. All memory is
    /// taken here.
    pub fn open(
        alloc: Global,
        site: Site,
        plan: Plan,
        digest: [u8; 32],
        panel: u8,
        journal: Journal,
    ) -> Result<NodeRun, NoMemory>
        requires valid { IsValid site }
        requires plan { HasPlan site plan }
        requires member { IsPanel site.panels panel }
        requires journal { IsOpenFor site journal.kept journal }
        ensures stands { IfOk result (RunsFor site panel journal.kept [] []) }
        ensures digest { IfOk result (λ run. run.node.digest ≡ digest) }
        ensures same { IfOk result (λ run. run.journal ≡ journal) }
    {
        note_sized(journal.kept());
        let starts = Starts::of(&site);
        let Ok(node) = Node::open(alloc, site, plan, digest, panel, journal.kept()) else {
            return Err(NoMemory);
        };
        let page = SoundMemorySink::new(alloc, PAGE_BYTES)?;
        let shown = node.face();
        Ok(NodeRun {
            node,
            journal,
            panel,
            shown,
            before: shown,
            store_failures: 0,
            starts,
            page,
        })
    }

    /// How many ticks were run.
    pub fn ticks(&self) -> u64
        ensures { HasTicks self.now result }
    {
        self.node.now().0
    }

    /// In how many of them Keep's turn failed.
    pub fn store_failures(&self) -> u64
        ensures { result ≡ self.now.store_failures }
    {
        self.store_failures
    }
}
