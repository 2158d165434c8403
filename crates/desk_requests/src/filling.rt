ghost use Rattle.std.specs.Prelude.{◌≡◌, ◌+◌, ◌<◌, ◌≤◌, [], IfOk, OnErr, length, take};
ghost use Rattle.panel_edges.specs.Faults.{HasCause};
ghost use Rattle.desk_requests.specs.Rooms.{FillsBehind, GainsBytes, read_into};
ghost use Rattle.desk_requests.specs.Taking.{body_of};

use crate::request_room::RequestRoom;
use crate::taken::Request;
use panel_edges::{Failed, MOST_BODY_BYTES, MOST_HEAD_BYTES, NoMemory, Source};
use std::alloc::Global;

const ROOM: usize = MOST_HEAD_BYTES + MOST_BODY_BYTES;

impl RequestRoom {
    pub fn new(alloc: Global) -> Result<RequestRoom, NoMemory>
        ensures { IfOk result (λ room. read_into room ≡ []) }
    {
        match vec![in alloc; 0; ROOM] {
            Ok(bytes) => Ok(RequestRoom { bytes, filled: 0 }),
            Err(_) => Err(NoMemory),
        }
    }

    /// The body of a request that was read into this room.
    pub fn body(&self, request: &Request) -> &[u8]
        requires { request.now.head + request.now.body ≤ length (read_into self.now) }
        ensures { result.now ≡ body_of request.now (read_into self.now) }
    {
        self.read_so_far()
            .split_at(request.head)
            .1
            .split_at(request.body)
            .0
    }

    /// What was read since it was cleared.
    pub fn read_so_far(&self) -> &[u8]
        ensures { result.now ≡ read_into self.now }
    {
        self.bytes.split_at(self.filled).0
    }

    /// Lets go what was read.
    pub fn clear(&mut self)
        ensures { read_into self.new ≡ [] }
    {
        self.filled = 0;
    }

    /// Reads once, so that no more than so many bytes stand here.
    ///
    /// # Errors
    ///
    /// Where the read fails. What stands here stays as it was.
    pub fn read_more<C: Source>(&mut self, conn: &mut C, most: usize) -> Result<usize, Failed>
        requires room { length (read_into self.old) < most }
        requires within { most ≤ 73728 }
        ensures gains { IfOk result
            (GainsBytes self.old self.new (C.left conn.old) (C.left conn.new)) }
        ensures bound { length (read_into self.new) ≤ most }
        ensures err { OnErr result ((read_into self.new ≡ read_into self.old)
            × (C.left conn.new ≡ C.left conn.old)) }
        ensures cause { HasCause (C.read_faults conn.old) (C.read_faults conn.new) result }
        ensures written { C.written conn.new ≡ C.written conn.old }
        ensures writes { C.write_faults conn.new ≡ C.write_faults conn.old }
    {
        let count = read_behind(conn, &mut self.bytes, self.filled, most)?;
        self.filled += count;
        Ok(count)
    }
}

// Reads once behind the bytes that are filled, up to a place.
fn read_behind<C: Source>(
    conn: &mut C,
    bytes: &mut [u8],
    filled: usize,
    most: usize,
) -> Result<usize, Failed>
    requires room { filled < most }
    requires within { most ≤ length bytes.old }
    ensures fills { IfOk result
        (FillsBehind bytes.old bytes.new filled (C.left conn.old) (C.left conn.new)) }
    ensures bound { IfOk result (λ count. filled + count ≤ most) }
    ensures err { OnErr result ((take filled bytes.new ≡ take filled bytes.old)
        × (C.left conn.new ≡ C.left conn.old)) }
    ensures cause { HasCause (C.read_faults conn.old) (C.read_faults conn.new) result }
    ensures written { C.written conn.new ≡ C.written conn.old }
    ensures writes { C.write_faults conn.new ≡ C.write_faults conn.old }
{
    let count = conn.read(&mut bytes[filled..most])?;
    Ok(count)
}
