ghost use Rattle.std.specs.Prelude.{◌≡◌, ◌≤◌, IfOk};
ghost use Rattle.desk_register.specs.Replies.{sides_of};
ghost use Rattle.panel_desk.specs.Replies.{refused_reply};
ghost use Rattle.panel_desk.specs.Serving.{BlamesConn, HasServedOne, MayServe, conn_sides};
ghost use Rattle.retained_journal.specs.Images.{Stands as StandsOn};
ghost use Rattle.site_run.specs.Disks.{KeepsOn};
ghost use Rattle.site_run.specs.Outside.{disks_of};
ghost use Rattle.site_types.specs.Valid.{IsValid};

use crate::replies::reply_to;
use crate::reply::Reply;
use crate::served::Served;
use crate::writing::send;
use desk_answers::Object;
use desk_register::Reply as RegisterReply;
use desk_requests::{RequestRoom, Routes, Status, Taken, read_request};
use panel_edges::{Disk, NoMemory, Sink, Source};
use service_keepers::Keeper;
use service_register::Register;
use site_run::Run;
use site_types::Site;
use std::alloc::Global;

/// The desk of a site: what it takes to read a request.
#[derive(Drop)]
pub struct Desk {
    panels: u8,
    routes: Routes,
    room: RequestRoom,
}

impl Desk {
    /// All memory for requests is taken here, but for what a body of JSON and the table of the untested points take.
    pub fn new(alloc: Global, site: &Site) -> Result<Desk, NoMemory>
        requires { IsValid site.now }
        ensures { IfOk result (λ desk. desk.panels ≡ site.now.panels) }
    {
        Ok(Desk {
            panels: site.panels,
            routes: Routes::new(alloc)?,
            room: RequestRoom::new(alloc)?,
        })
    }

    /// Serves one connection: reads one request, does what it asks for and answers it.
    pub fn serve_one<C: Source + Sink, D: Disk, R: Keeper>(
        &mut self,
        alloc: Global,
        conn: &mut C,
        run: &mut Run,
        register: &Register,
        disk: &mut D,
        keeper: &mut R,
    ) -> Served
        requires may { MayServe self.old.panels register.now run.old }
        requires stands { StandsOn D.honest D.images disk.old run.old.journal }
        ensures serves { HasServedOne (conn_sides C.left C.written conn.old conn.new) (sides_of
            R.tables R.faults keeper.old keeper.new) (disks_of D.honest D.images D.moment
            D.left_since disk.old disk.new) run.old run.new result }
        ensures disk { KeepsOn D.honest D.images D.faults disk.old disk.new run.old run.new }
        ensures conn { BlamesConn (C.read_faults conn.old) (C.read_faults conn.new)
            (C.write_faults conn.old) (C.write_faults conn.new) result }
        ensures later { R.faults keeper.old ≤ R.faults keeper.new }
        ensures panels { self.new.panels ≡ self.old.panels }
    {
        match read_request(conn, &mut self.room, &self.routes, self.panels) {
            Taken::Ended => Served::Ended,
            Taken::ReadFault => Served::ReadFault,
            Taken::Refused(status) => send(&refused(status), run, conn),
            Taken::Asked(request) => {
                let body = self.room.body(&request);
                let reply = reply_to(alloc, request.route, body, run, register, disk, keeper);
                send(&reply, run, conn)
            }
        }
    }
}

// The reply to a request that is refused before its body is looked at.
fn refused(status: Status) -> Reply
    ensures { result ≡ refused_reply status }
{
    Reply::Other(RegisterReply::Object {
        status,
        object: Object::Empty,
    })
}
