/// A call that the log of a disk in memory holds.
#[derive(Drop)]
pub enum DiskCall {
    /// A write of `count` bytes at the place `at`, of which the file took the first `kept`: all of them, or
    /// half where the write failed.
    Wrote {
        at: usize,
        count: usize,
        kept: usize,
    },
    /// A sync that succeeded.
    Synced,
}
