use anyhow::Result;
use std::alloc::Global;
use trial_cases::Lines;

/// What was counted in all runs with a carrier.
#[derive(Clone, Copy, Default)]
pub(crate) struct Carried {
    pub(crate) ticks: u64,
    /// The zones of other panels that were shown in alarm, by panel and tick.
    pub(crate) shown: u64,
    /// The frames that were taken.
    pub(crate) taken: u64,
    pub(crate) lost: u64,
    pub(crate) doubled: u64,
    pub(crate) delayed: u64,
    /// The frames that came behind one which their sender had handed out later.
    pub(crate) turned: u64,
    /// The frames that came to panels that aren't next to their sender.
    pub(crate) strayed: u64,
}

impl Carried {
    pub(crate) fn say(&self, alloc: Global) -> Result<String> {
        let mut lines = Lines::new(alloc);
        lines.count("    ", self.ticks);
        lines.count(" ticks, zones of others shown ", self.shown);
        lines.count(", frames taken ", self.taken);
        lines.count(", lost ", self.lost);
        lines.count(", doubled ", self.doubled);
        lines.count(", delayed ", self.delayed);
        lines.count(", turned ", self.turned);
        lines.count(", strayed ", self.strayed);
        lines.say(": each zone by the newest word that came\n");
        lines.done()
    }
}
