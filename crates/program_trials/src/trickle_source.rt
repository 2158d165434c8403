ghost use Rattle.std.specs.Prelude.{◌<◌, None};

use panel_edges::{Failed, MemorySource, Source, Stream};

/// A source that gives at most so many bytes at a time.
#[derive(Drop)]
pub(crate) struct TrickleSource {
    pub(crate) source: MemorySource,
    pub(crate) most: usize,
    ghost some: { 0 < most },
}

impl Stream for TrickleSource {
    ghost left = { λ s. None };

    ghost written = { λ s. None };

    ghost read_faults = { λ s. s.source.faults };

    ghost write_faults = { λ s. 0 };
}

impl Source for TrickleSource {
    fn read(&mut self, into: &mut [u8]) -> Result<usize, Failed> {
        let most = into.len().min(self.most);
        self.source.read(&mut into[..most])
    }
}
