ghost use Rattle.std.specs.Prelude.{◌≡◌, None};

use crate::failed::Failed;
use crate::streams::{Sink, Stream};

/// Standard output, which tells nothing of its bytes. No write is buffered, and one that takes no byte is a fault.
#[derive(Drop)]
pub struct StdSink<R: Print + Drop> {
    rt: R,
    faults: u64,
}

impl<R: Print + Drop> StdSink<R> {
    pub fn new(rt: R) -> StdSink<R>
        ensures { result.faults ≡ 0 }
    {
        StdSink { rt, faults: 0 }
    }
}

impl<R: Print + Drop> Stream for StdSink<R> {
    ghost left = { λ s. None };

    ghost written = { λ s. None };

    ghost read_faults = { λ s. 0 };

    ghost write_faults = { λ s. s.faults };
}

impl<R: Print + Drop> Sink for StdSink<R> {
    fn write(&mut self, piece: &[u8]) -> Result<usize, Failed> {
        match self.rt.write_some(piece) {
            Ok(count) if count > 0 => Ok(count),
            _ => {
                self.faults = self.faults.saturating_add(1);
                Err(Failed)
            }
        }
    }
}
