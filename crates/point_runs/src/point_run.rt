//! The ticks without a gap in which a test holds.

ghost use Rattle.std.specs.Prelude.{◌≡◌, ◌+◌, ◌≤◌, ℕ, Bool, false};
ghost use Rattle.point_runs.specs.Runs.{IsLastRound, RunStands, held_at, run_after};

/// What is kept of the ticks in which a test held.
#[derive(Clone, Copy)]
pub struct PointRun {
    /// The first tick of the run that lasts, 0 where none does.
    pub since: u64,
    /// The last tick from which on earlier runs lasted a whole round, 0 where there is none.
    pub held: u64,
}

impl PointRun {
    /// No tick has begun.
    pub fn none() -> PointRun
        ensures { (test : ℕ → Bool) (round : ℕ) → 1 ≤ round → test 0 ≡ false
            → RunStands test round 0 result }
    {
        PointRun { since: 0, held: 0 }
    }

    /// The run after one more tick, with rounds of so many ticks.
    pub fn after(self, round: u64, now: u64, holds: bool) -> PointRun
        ensures value { result ≡ run_after round now holds self }
        ensures stands { (test : ℕ → Bool) (before : ℕ) → 1 ≤ round → before + 1 ≡ now
            → test now ≡ holds → RunStands test round before self
            → RunStands test round now result }
    {
        if !holds {
            PointRun {
                since: 0,
                held: self.held_at(round, now.saturating_sub(1)),
            }
        } else if self.since == 0 {
            PointRun {
                since: now,
                held: self.held,
            }
        } else {
            self
        }
    }

    /// The last tick from which on the test held for a whole round that has ended, 0 where there is none.
    pub fn held_at(self, round: u64, now: u64) -> u64
        ensures value { result ≡ held_at round now self }
        ensures last { (test : ℕ → Bool) → 1 ≤ round → RunStands test round now self
            → IsLastRound test round (now + 1) result }
    {
        let before_last = round.saturating_sub(1);
        if self.since > 0 && now.saturating_sub(self.since) >= before_last {
            now - before_last
        } else {
            self.held
        }
    }
}
