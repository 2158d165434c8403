//! Reading what comes over a connection.

ghost use Rattle.std.specs.Prelude.{◌≡◌, ◌≤◌, OnOk, length};
ghost use Rattle.desk_requests.specs.Rooms.{read_into};
ghost use Rattle.node_inputs.specs.Reading.{ReadsInput, most_input_bytes};
ghost use Rattle.panel_edges.specs.Faults.{HasCause};

use desk_requests::RequestRoom;
use desk_ticks::MOST_BLOCK_BYTES;
use panel_edges::{Failed, Source};

// The most bytes that are read: by one more than a block may have it is known to be too long.
const MOST_INPUT_BYTES: usize = MOST_BLOCK_BYTES + 1;

/// Reads what comes over a connection to its end, or so much of it that it is known to be too long.
///
/// # Errors
///
/// At the first read that fails.
pub fn read_whole<C: Source>(conn: &mut C, room: &mut RequestRoom) -> Result<(), Failed>
    ensures read { OnOk result
        (ReadsInput (C.left conn.old) (C.left conn.new) (read_into room.new)) }
    ensures short { length (read_into room.new) ≤ most_input_bytes }
    ensures cause { HasCause (C.read_faults conn.old) (C.read_faults conn.new) result }
    ensures written { C.written conn.new ≡ C.written conn.old }
    ensures writes { C.write_faults conn.new ≡ C.write_faults conn.old }
{
    room.clear();
    while room.read_so_far().len() < MOST_INPUT_BYTES {
        let count = room.read_more(conn, MOST_INPUT_BYTES)?;
        if count == 0 {
            return Ok(());
        }
    }
    Ok(())
}
