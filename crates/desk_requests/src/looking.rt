ghost use Rattle.std.specs.Prelude.{◌≤◌, length};
ghost use Rattle.desk_requests.specs.Looks.{Looks};
ghost use Rattle.desk_requests.specs.Rooms.{read_into};

use crate::asking::{Asking, judge};
use crate::request_room::RequestRoom;
use crate::routes::Routes;
use crate::status::Status;
use httparse::EMPTY_HEADER;

const MOST_FIELDS: usize = 32;

// What has come of a head.
#[derive(Clone, Copy)]
pub(crate) enum Looked {
    // It is whole, in so many bytes, and asks for this.
    Whole(usize, Asking),
    Refused(Status),
    Begun,
}

impl RequestRoom {
    // What the bytes that were read say of a head.
    pub(crate) fn look(&self, routes: &Routes, panels: u8) -> Looked
        requires { length (read_into self.now) ≤ 8192 }
        ensures { Looks panels (read_into self.now) result }
    {
        let mut fields = [EMPTY_HEADER; MOST_FIELDS];
        let mut head = httparse::Request::new(&mut fields);
        match head.parse(self.read_so_far()) {
            Ok(httparse::Status::Complete(at)) if head.headers.len() <= MOST_FIELDS => {
                let (Some(method), Some(target)) = (head.method, head.path) else {
                    unreachable!()
                };
                match judge(routes, panels, method, target, head.headers) {
                    Ok(asking) => Looked::Whole(at, asking),
                    Err(status) => Looked::Refused(status),
                }
            }
            Ok(httparse::Status::Partial) => Looked::Begun,
            _ => Looked::Refused(Status::BadRequest),
        }
    }
}
