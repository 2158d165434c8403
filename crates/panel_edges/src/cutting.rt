ghost use Rattle.std.specs.Prelude.{◌≡◌, take, drop, IfOk, OnOk};
ghost use Rattle.panel_edges.specs.DiskLogs.{DoesAgain, calls_of, cut_by, front_written};

use crate::disk_call::DiskCall;
use crate::overwriting::overwrite;
use std::alloc::{AllocError, Global};

// The file that a cut leaves after the calls of a log, where each write since the last sync left so many of its first
// bytes, by its place in the log.
pub(crate) fn cut_file(
    alloc: Global,
    start: &[u8],
    log: &[DiskCall],
    log_bytes: &[u8],
    kept: &[usize],
) -> Result<Vec<u8>, AllocError>
    ensures { IfOk result (λ file. file.items ≡ cut_by start.now (calls_of log.now log_bytes.now)
        kept.now) }
{
    let mut whole = Vec::from_slice(alloc, start)?;
    let mut torn = Vec::from_slice(alloc, start)?;
    let mut rest = log_bytes;
    for (place, call) in log.iter().enumerate() {
        let left = kept.get(place).copied().unwrap_or(0);
        rest = replay(call, left, rest, &mut whole, &mut torn)?;
    }
    Ok(torn)
}

// Does one call again: to the file as it reads, and to the file as cut, where a write leaves so many of its
// first bytes. The bytes of the log come in, and those of the calls behind go out.
fn replay<'a>(
    call: &DiskCall,
    left: usize,
    rest: &'a [u8],
    whole: &mut Vec<u8>,
    torn: &mut Vec<u8>,
) -> Result<&'a [u8], AllocError>
    ensures { IfOk result (λ behind. DoesAgain call.now left rest.now behind.now
        whole.old.items torn.old.items whole.new.items torn.new.items) }
{
    match call {
        DiskCall::Wrote { at, count, kept } => {
            let (bytes, behind) = split_front(rest, *count);
            overwrite(whole, *at, split_front(bytes, *kept).0)?;
            write_front(torn, *at, bytes, left)?;
            Ok(behind)
        }
        DiskCall::Synced => {
            torn.clear();
            torn.extend_from_slice(whole)?;
            Ok(rest)
        }
    }
}

// Writes the first so many bytes, and does nothing for none.
fn write_front(file: &mut Vec<u8>, at: usize, bytes: &[u8], kept: usize) -> Result<(), AllocError>
    ensures { OnOk result (file.new.items ≡ front_written at bytes.now kept file.old.items) }
{
    if kept == 0 {
        return Ok(());
    }
    overwrite(file, at, split_front(bytes, kept).0)
}

// The first so many bytes, or all where there are fewer, and those behind.
fn split_front(bytes: &[u8], count: usize) -> (&[u8], &[u8])
    ensures front { result.0.now ≡ take count bytes.now }
    ensures behind { result.1.now ≡ drop count bytes.now }
{
    bytes.split_at(count.min(bytes.len()))
}
