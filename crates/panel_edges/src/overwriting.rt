ghost use Rattle.std.specs.Prelude.{◌≡◌, ◌+◌, ◌-◌, ◌≤◌, ◌++◌, max, length, replicate, vec_capacity, IsOk, OnOk};
ghost use Rattle.panel_edges.specs.Overwritten.{overwritten};

use std::alloc::AllocError;

// Writes over what is there, and past the end. Zeros fill what lies between.
pub(crate) fn overwrite(bytes: &mut Vec<u8>, at: usize, piece: &[u8]) -> Result<(), AllocError>
    ensures items { OnOk result (bytes.new.items ≡ overwritten at piece.now bytes.old.items) }
    ensures succeeds { max (length bytes.old.items) (at + length piece.now) ≤ vec_capacity bytes.old
        → IsOk result }
    ensures room { vec_capacity bytes.old ≤ vec_capacity bytes.new }
{
    pad(bytes, at)?;
    let within = piece.len().min(bytes.len() - at);
    bytes[at..at + within].copy_from_slice(&piece[..within]);
    bytes.extend_from_slice(&piece[within..])
}

// Fills up with zeros to a length, where there are fewer bytes.
fn pad(bytes: &mut Vec<u8>, len: usize) -> Result<(), AllocError>
    ensures items { OnOk result (bytes.new.items ≡ bytes.old.items
        ++ replicate (len - length bytes.old.items) 0) }
    ensures succeeds { len ≤ vec_capacity bytes.old → IsOk result }
    ensures room { vec_capacity bytes.old ≤ vec_capacity bytes.new }
{
    if bytes.len() < len {
        bytes.resize(len, 0)?;
    }
    Ok(())
}

// Writes a piece over the bytes from a place on, in room that is reserved.
pub(crate) fn overwrite_reserved(bytes: &mut Vec<u8>, at: usize, piece: &[u8])
    requires { max (length bytes.old.items) (at + length piece.now) ≤ vec_capacity bytes.old }
    ensures items { bytes.new.items ≡ overwritten at piece.now bytes.old.items }
    ensures room { vec_capacity bytes.old ≤ vec_capacity bytes.new }
{
    match overwrite(bytes, at, piece) {
        Ok(()) => {}
        Err(_) => unreachable!(),
    }
}

// Writes at the end, in room that is reserved.
pub(crate) fn append_reserved(bytes: &mut Vec<u8>, piece: &[u8])
    requires { length bytes.old.items + length piece.now ≤ vec_capacity bytes.old }
    ensures items { bytes.new.items ≡ bytes.old.items ++ piece.now }
    ensures room { vec_capacity bytes.old ≤ vec_capacity bytes.new }
{
    match bytes.extend_from_slice(piece) {
        Ok(()) => {}
        Err(_) => unreachable!(),
    }
}
