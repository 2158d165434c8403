ghost use Rattle.std.specs.Prelude.{◌≡◌};
ghost use Rattle.program_status.specs.Statuses.{number_of};

use crate::status::Status;

/// How a command ended.
#[derive(Clone, Copy, Debug, PartialEq, Eq)]
pub struct Outcome {
    /// What `main` ends with: the number of a [`Status`].
    pub status: u8,
    /// How many ticks were run.
    pub ticks: u64,
    /// In how many of them what is retained could not be kept.
    pub store_failures: u64,
}

impl Outcome {
    /// A command that ended with this status after so many ticks.
    pub fn after(status: Status, ticks: u64) -> Outcome
        ensures { result ≡ record { status = number_of status; ticks = ticks; store_failures = 0 } }
    {
        Outcome {
            status: status.number(),
            ticks,
            store_failures: 0,
        }
    }
}
