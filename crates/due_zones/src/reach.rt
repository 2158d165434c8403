//! How far a signal has come.

ghost use Rattle.std.specs.Prelude.{◌+◌, ◌≤◌, ◌↔◌, IsTrue, Some};

/// What a panel hears of a zone's panel by the end of a tick.
#[derive(Clone, Copy)]
pub(crate) struct Reach {
    /// The site's format.
    pub format: u8,
    /// The tick.
    pub tick: u64,
    /// It is the zone's panel.
    pub own: bool,
    /// The latest tick from which on both were joined for so long that a word came and acted there.
    pub window: Option<u64>,
}

impl Reach {
    ghost use Rattle.due_zones.specs.Reaching.{CameRound, IsHome, TellsReached};

    /// Whether a signal that counts from a tick on is due.
    pub(crate) fn is_due(&self, settled: Option<u64>) -> bool
        ensures { TellsReached self.now settled result }
    {
        match settled {
            None => false,
            Some(first) => self.has_come(first),
        }
    }

    fn has_come(&self, settled: u64) -> bool
        ensures { TellsReached self.now (Some settled) result }
    {
        let here = self.is_home(settled);
        let there = self.came_round(settled);
        here || there
    }

    // Whether a signal that counts from a tick on is due on the zone's own panel.
    fn is_home(&self, settled: u64) -> bool
        ensures { IsTrue result ↔ IsHome self.now settled }
    {
        self.own && lies_before(settled, 20 * self.format as u64, self.tick)
    }

    // Whether a signal that counts from a tick on is due where a word comes round the ring.
    fn came_round(&self, settled: u64) -> bool
        ensures { IsTrue result ↔ CameRound self.now.format settled self.now.window }
    {
        match self.window {
            None => false,
            Some(window) => lies_before(settled, 16 * self.format as u64, window),
        }
    }
}

// Whether so many ticks behind a tick another has come.
fn lies_before(first: u64, span: u64, last: u64) -> bool
    ensures { IsTrue result ↔ (first + span ≤ last) }
{
    last >= span && last - span >= first
}
