ghost use Rattle.std.specs.Prelude.{◌≡◌, None};

use crate::failed::Failed;
use crate::streams::{Source, Stream};
use std::io::Read;

/// Standard input, which tells nothing of its bytes. It is connected at the first read.
#[derive(Drop)]
pub struct StdSource<R: Input + Drop> {
    rt: R,
    reader: Option<R::Reader>,
    faults: u64,
}

impl<R: Input + Drop> StdSource<R> {
    pub fn new(rt: R) -> StdSource<R>
        ensures { result.faults ≡ 0 }
    {
        StdSource {
            rt,
            reader: None,
            faults: 0,
        }
    }
}

impl<R: Input + Drop> Stream for StdSource<R> {
    ghost left = { λ s. None };

    ghost written = { λ s. None };

    ghost read_faults = { λ s. s.faults };

    ghost write_faults = { λ s. 0 };
}

impl<R: Input + Drop> Source for StdSource<R> {
    fn read(&mut self, into: &mut [u8]) -> Result<usize, Failed> {
        if self.reader.is_none() {
            self.reader = Some(self.rt.reader());
        }
        match &mut self.reader {
            Some(reader) => match reader.read(into) {
                Ok(count) => Ok(count),
                Err(_) => {
                    self.faults = self.faults.saturating_add(1);
                    Err(Failed)
                }
            },
            None => unreachable!(),
        }
    }
}
