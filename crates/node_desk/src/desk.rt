ghost use Rattle.std.specs.Prelude.{◌≡◌, [], IfOk};
ghost use Rattle.desk_doors.specs.Doors.{conn_told};
ghost use Rattle.node_desk.specs.Replies.{MayReply};
ghost use Rattle.node_desk.specs.Running.{KeepsOn};
ghost use Rattle.node_desk.specs.Runs.{HasTicks, RunsFor};
ghost use Rattle.node_desk.specs.Serving.{BlamesConn, ServesOne};
ghost use Rattle.panel_parts.specs.Stands.{HasPlan};
ghost use Rattle.panel_rules.specs.Moments.{IsPanel};
ghost use Rattle.retained_journal.specs.Images.{Stands as StandsOn};
ghost use Rattle.site_run.specs.Journals.{IsOpenFor};
ghost use Rattle.site_run.specs.Outside.{disks_of};
ghost use Rattle.site_types.specs.Valid.{IsValid};

use crate::node_run::NodeRun;
use cause_effect::Plan;
use desk_requests::RequestRoom;
use node_answers::Exchanged;
use node_inputs::read_whole;
use panel_edges::{Disk, Failed, NoMemory, Sink, Source};
use retained_journal::Journal;
use site_types::Site;
use std::alloc::Global;

/// A panel at work by itself, with the room into which what comes over a connection is read.
#[derive(Drop)]
pub struct NodeDesk {
    pub(crate) run: NodeRun,
    room: RequestRoom,
}

impl NodeDesk {
    /// A panel of a site before its first tick, with the digest of the site's file and the journal that was opened for
    /// it. All memory is taken here.
    pub fn open(
        alloc: Global,
        site: Site,
        plan: Plan,
        digest: [u8; 32],
        panel: u8,
        journal: Journal,
    ) -> Result<NodeDesk, NoMemory>
        requires valid { IsValid site }
        requires plan { HasPlan site plan }
        requires member { IsPanel site.panels panel }
        requires journal { IsOpenFor site journal.kept journal }
        ensures stands { IfOk result (λ desk. RunsFor site panel journal.kept [] [] desk.run) }
        ensures digest { IfOk result (λ desk. desk.run.node.digest ≡ digest) }
        ensures same { IfOk result (λ desk. desk.run.journal ≡ journal) }
    {
        let room = RequestRoom::new(alloc)?;
        let run = NodeRun::open(alloc, site, plan, digest, panel, journal)?;
        Ok(NodeDesk { run, room })
    }

    /// How many ticks were run.
    pub fn ticks(&self) -> u64
        ensures { HasTicks self.now.run result }
    {
        self.run.ticks()
    }

    /// In how many of them Keep's turn failed.
    pub fn store_failures(&self) -> u64
        ensures { result ≡ self.now.run.store_failures }
    {
        self.run.store_failures()
    }

    /// Serves one connection: reads what comes, does what that brings about, and answers it.
    pub fn serve_one<C: Source + Sink, D: Disk>(&mut self, conn: &mut C, disk: &mut D) -> Exchanged
        requires may { MayReply self.old.run }
        requires stands { StandsOn D.honest D.images disk.old self.old.run.journal }
        ensures serves { ServesOne (conn_told (C.left conn.old) (C.written conn.old))
            (conn_told (C.left conn.new) (C.written conn.new))
            (disks_of D.honest D.images D.moment D.left_since disk.old disk.new)
            self.old.run self.new.run result }
        ensures disk { KeepsOn D.honest D.images D.faults disk.old disk.new
            self.old.run self.new.run }
        ensures conn { BlamesConn (C.read_faults conn.old) (C.read_faults conn.new)
            (C.write_faults conn.old) (C.write_faults conn.new) result }
        ensures digest { self.new.run.node.digest ≡ self.old.run.node.digest }
    {
        match read_whole(conn, &mut self.room) {
            Ok(()) => {
                let reply = self.run.reply_to(self.room.read_so_far(), disk);
                self.run.send(reply, conn)
            }
            Err(Failed) => Exchanged::ReadFault,
        }
    }
}
