ghost use Rattle.std.specs.Prelude.{◌≡◌, ◌+◌, ◌≤◌, length};
ghost use Rattle.desk_requests.specs.Looks.{IsWhole};
ghost use Rattle.desk_requests.specs.Rooms.{read_into};
ghost use Rattle.desk_requests.specs.Taking.{HasReadCause, ReadsOneRequest, TakesMore};

use crate::asking::Asking;
use crate::looking::Looked;
use crate::request_room::RequestRoom;
use crate::routes::Routes;
use crate::status::Status;
use crate::taken::{Request, Taken};
use panel_edges::{Failed, MOST_HEAD_BYTES, Source};

/// Reads one request of a site with so many panels. No more is read than its head and its body need, but what comes
/// in one piece with the head.
pub fn read_request<C: Source>(
    conn: &mut C,
    room: &mut RequestRoom,
    routes: &Routes,
    panels: u8,
) -> Taken
    ensures takes { ReadsOneRequest panels (C.left conn.old) (C.left conn.new)
        (read_into room.new) result }
    ensures cause { HasReadCause (C.read_faults conn.old) (C.read_faults conn.new) result }
    ensures written { C.written conn.new ≡ C.written conn.old }
    ensures writes { C.write_faults conn.new ≡ C.write_faults conn.old }
{
    room.clear();
    loop {
        match room.look(routes, panels) {
            Looked::Whole(head, asking) => return read_body(conn, room, panels, head, asking),
            Looked::Refused(status) => return Taken::Refused(status),
            Looked::Begun => {}
        }
        if room.read_so_far().len() >= MOST_HEAD_BYTES {
            return Taken::Refused(Status::BadRequest);
        }
        match room.read_more(conn, MOST_HEAD_BYTES) {
            Ok(0) => return Taken::Ended,
            Ok(_) => {}
            Err(Failed) => return Taken::ReadFault,
        }
    }
}

// Reads on until the body that a head asks for is there.
fn read_body<C: Source>(
    conn: &mut C,
    room: &mut RequestRoom,
    panels: u8,
    head: usize,
    asking: Asking,
) -> Taken
    requires { IsWhole panels (read_into room.old) head asking }
    ensures takes { TakesMore panels (C.left conn.old) (C.left conn.new)
        (read_into room.old) (read_into room.new) result }
    ensures cause { HasReadCause (C.read_faults conn.old) (C.read_faults conn.new) result }
    ensures written { C.written conn.new ≡ C.written conn.old }
    ensures writes { C.write_faults conn.new ≡ C.write_faults conn.old }
{
    let end = head + asking.length;
    while room.read_so_far().len() < end {
        match room.read_more(conn, end) {
            Ok(0) => return Taken::Ended,
            Ok(_) => {}
            Err(Failed) => return Taken::ReadFault,
        }
    }
    Taken::Asked(Request {
        route: asking.route,
        head,
        body: asking.length,
    })
}
