ghost use Rattle.std.specs.Prelude.{◌≡◌, false, [], IfOk};
ghost use Rattle.desk_doors.specs.Passing.{door_sides};
ghost use Rattle.face_text.specs.Timelines.{empty_faces};
ghost use Rattle.panel_parts.specs.Stands.{HasPlan};
ghost use Rattle.panel_edges.specs.Faults.{HasCause};
ghost use Rattle.retained_journal.specs.Images.{Stands as StandsOn};
ghost use Rattle.serve_command.specs.Acting.{HasServedAll, IsAt, IsOpened};
ghost use Rattle.serve_command.specs.Acting.{MayServeNext, ServesNext};
ghost use Rattle.serve_command.specs.Acting.{worlds_of};
ghost use Rattle.serve_command.specs.Doors.{is_stop as is_stop_of};
ghost use Rattle.serving_ends.specs.Ends.{BlamesDoor, IsCount};
ghost use Rattle.site_run.specs.Disks.{KeepsOn};
ghost use Rattle.site_run.specs.Journals.{IsOpenFor};
ghost use Rattle.site_types.specs.Valid.{IsValid};

use cause_effect::Plan;
use desk_doors::Door;
use panel_desk::{Desk, Served};
use panel_edges::{Disk, Failed, NoMemory};
use retained_journal::Journal;
use service_keepers::Keeper;
use service_register::Register;
use serving_ends::ServingEnd;
use site_run::Run;
use site_types::Site;
use std::alloc::Global;

/// A site at work, with its desk and its register.
#[derive(Drop)]
pub struct Counter {
    pub(crate) run: Run,
    pub(crate) desk: Desk,
    pub(crate) register: Register,
}

impl Counter {
    /// The site before the first tick, with the journal that was opened for it. All memory is taken here, but for what
    /// a request about the register takes.
    pub fn open(
        alloc: Global,
        site: Site,
        plan: Plan,
        journal: Journal,
    ) -> Result<Counter, NoMemory>
        requires valid { IsValid site }
        requires plan { HasPlan site plan }
        requires journal { IsOpenFor site journal.kept journal }
        ensures opened { IfOk result (λ counter. IsAt site journal.kept [] counter) }
        ensures empty { IfOk result (λ counter. counter.run.next.items ≡ empty_faces site) }
        ensures same { IfOk result (λ counter. counter.run.journal ≡ journal) }
    {
        let Ok(register) = Register::new(alloc, &site) else {
            return Err(NoMemory);
        };
        let desk = Desk::new(alloc, &site)?;
        let run = Run::open(alloc, site, plan, journal)?;
        Ok(Counter {
            run,
            desk,
            register,
        })
    }

    /// Starts the door at a port, and serves so many connections, or up to a stop, or until the door fails.
    pub fn serve<G: Door, D: Disk, R: Keeper>(
        &mut self,
        alloc: Global,
        port: u16,
        count: u32,
        door: &mut G,
        disk: &mut D,
        keeper: &mut R,
    ) -> ServingEnd
        requires opened { IsOpened self.old }
        requires count { IsCount count }
        requires out { G.is_out door.old ≡ false }
        requires stands { StandsOn D.honest D.images disk.old self.old.run.journal }
        ensures serves { HasServedAll (worlds_of D.honest D.images D.moment D.left_since
            R.tables R.faults disk.old disk.new keeper.old keeper.new)
            (door_sides G.waiting G.handed door.old door.new) count self.old self.new result }
        ensures disk { KeepsOn D.honest D.images D.faults disk.old disk.new
            self.old.run self.new.run }
        ensures cause { BlamesDoor (G.faults door.old) (G.faults door.new) result }
    {
        let Ok(()) = door.start(port) else {
            return ServingEnd::at_door(0);
        };
        let mut served = 0;
        let mut stopped = false;
        while served < count && !stopped {
            match self.serve_next(alloc, door, disk, keeper) {
                Ok(what) => {
                    served += 1;
                    stopped = is_stop(what);
                }
                Err(Failed) => return ServingEnd::at_door(served),
            }
        }
        ServingEnd::whole(served)
    }

    // Serves the next connection and hands it back.
    fn serve_next<G: Door, D: Disk, R: Keeper>(
        &mut self,
        alloc: Global,
        door: &mut G,
        disk: &mut D,
        keeper: &mut R,
    ) -> Result<Served, Failed>
        requires may { MayServeNext self.old }
        requires out { G.is_out door.old ≡ false }
        requires stands { StandsOn D.honest D.images disk.old self.old.run.journal }
        ensures serves { ServesNext (worlds_of D.honest D.images D.moment D.left_since
            R.tables R.faults disk.old disk.new keeper.old keeper.new)
            (door_sides G.waiting G.handed door.old door.new) self.old self.new result }
        ensures disk { KeepsOn D.honest D.images D.faults disk.old disk.new
            self.old.run self.new.run }
        ensures out { G.is_out door.new ≡ false }
        ensures cause { HasCause (G.faults door.old) (G.faults door.new) result }
    {
        let mut conn = door.next()?;
        let served = self.desk.serve_one(
            alloc,
            &mut conn,
            &mut self.run,
            &self.register,
            disk,
            keeper,
        );
        door.finish(conn);
        Ok(served)
    }
}

fn is_stop(served: Served) -> bool
    ensures { result ≡ is_stop_of served }
{
    match served {
        Served::Stopped => true,
        Served::Answered { .. } | Served::Ended | Served::ReadFault | Served::WriteFault => false,
    }
}
