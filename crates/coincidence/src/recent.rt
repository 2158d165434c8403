ghost use Rattle.std.specs.Prelude.{◌≡◌};
ghost use Rattle.coincidence.specs.Parts.{besides, noted};

use crate::point_stamp::PointStamp;
use tick_units::Tick;

/// The latest answer that counted, and the latest one of another point than that one's.
#[derive(Clone, Copy)]
pub struct Recent {
    latest: Option<PointStamp>,
    other: Option<PointStamp>,
}

impl Recent {
    pub fn none() -> Recent
        ensures { result ≡ record { latest = None; other = None } }
    {
        Recent {
            latest: None,
            other: None,
        }
    }

    /// Takes note of an answer that isn't earlier than those before.
    pub fn note(&mut self, point: u16, stamp: Tick)
        ensures { self.new ≡ noted point stamp self.old }
    {
        if let Some(seen) = &mut self.latest {
            if seen.point == point {
                seen.stamp = stamp;
                return;
            }
            self.other = self.latest;
        }
        self.latest = Some(PointStamp { point, stamp });
    }

    /// The stamp of the latest answer of another point than this one.
    pub fn besides(&self, point: u16) -> Option<Tick>
        ensures { result ≡ besides point self.now }
    {
        match self.latest {
            Some(seen) if seen.point != point => Some(seen.stamp),
            _ => match self.other {
                Some(seen) => Some(seen.stamp),
                None => None,
            },
        }
    }
}
