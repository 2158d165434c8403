ghost use Rattle.std.specs.Prelude.{◌<◌, None};

use panel_edges::{Failed, MemorySink, Sink, Stream};

/// A sink that takes at most so many bytes at a time.
#[derive(Drop)]
pub(crate) struct TrickleSink {
    pub(crate) sink: MemorySink,
    pub(crate) most: usize,
    ghost some: { 0 < most },
}

impl Stream for TrickleSink {
    ghost left = { λ s. None };

    ghost written = { λ s. None };

    ghost read_faults = { λ s. 0 };

    ghost write_faults = { λ s. s.sink.faults };
}

impl Sink for TrickleSink {
    fn write(&mut self, piece: &[u8]) -> Result<usize, Failed> {
        let count = piece.len().min(self.most);
        self.sink.write(&piece[..count])
    }
}
