//! Connections, one after another.

ghost use Rattle.std.specs.Prelude.{◌≡◌, false};
ghost use Rattle.desk_doors.specs.Passing.{door_sides};
ghost use Rattle.node_command.specs.Acting.{HasServedAll, IsOpened, ServesNext};
ghost use Rattle.node_desk.specs.Replies.{MayReply};
ghost use Rattle.node_desk.specs.Running.{KeepsOn};
ghost use Rattle.panel_edges.specs.Faults.{HasCause};
ghost use Rattle.retained_journal.specs.Images.{Stands as StandsOn};
ghost use Rattle.serving_ends.specs.Ends.{BlamesDoor, IsCount};
ghost use Rattle.site_run.specs.Outside.{disks_of};

use desk_doors::Door;
use node_answers::Exchanged;
use node_desk::NodeDesk;
use panel_edges::{Disk, Failed};
use serving_ends::ServingEnd;

/// Starts the door at a port, and serves so many connections, or until the door fails.
pub(crate) fn serve<G: Door, D: Disk>(
    desk: &mut NodeDesk,
    port: u16,
    count: u32,
    door: &mut G,
    disk: &mut D,
) -> ServingEnd
    requires opened { IsOpened desk.old.run }
    requires count { IsCount count }
    requires out { G.is_out door.old ≡ false }
    requires stands { StandsOn D.honest D.images disk.old desk.old.run.journal }
    ensures serves { HasServedAll
        (disks_of D.honest D.images D.moment D.left_since disk.old disk.new)
        (door_sides G.waiting G.handed door.old door.new) count desk.old.run desk.new.run result }
    ensures disk { KeepsOn D.honest D.images D.faults disk.old disk.new desk.old.run desk.new.run }
    ensures cause { BlamesDoor (G.faults door.old) (G.faults door.new) result }
{
    let Ok(()) = door.start(port) else {
        return ServingEnd::at_door(0);
    };
    let mut served = 0;
    while served < count {
        match serve_next(desk, door, disk) {
            Ok(_) => served += 1,
            Err(Failed) => return ServingEnd::at_door(served),
        }
    }
    ServingEnd::whole(served)
}

// Serves the next connection and hands it back.
fn serve_next<G: Door, D: Disk>(
    desk: &mut NodeDesk,
    door: &mut G,
    disk: &mut D,
) -> Result<Exchanged, Failed>
    requires may { MayReply desk.old.run }
    requires out { G.is_out door.old ≡ false }
    requires stands { StandsOn D.honest D.images disk.old desk.old.run.journal }
    ensures serves { ServesNext
        (disks_of D.honest D.images D.moment D.left_since disk.old disk.new)
        (door_sides G.waiting G.handed door.old door.new) desk.old.run desk.new.run result }
    ensures disk { KeepsOn D.honest D.images D.faults disk.old disk.new desk.old.run desk.new.run }
    ensures digest { desk.new.run.node.digest ≡ desk.old.run.node.digest }
    ensures out { G.is_out door.new ≡ false }
    ensures cause { HasCause (G.faults door.old) (G.faults door.new) result }
{
    let mut conn = door.next()?;
    let exchanged = desk.serve_one(&mut conn, disk);
    door.finish(conn);
    Ok(exchanged)
}
