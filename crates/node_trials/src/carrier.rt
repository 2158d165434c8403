use crate::neighbours::place_between;
use crate::posted::Posted;
use anyhow::Result;
use panel_links::Frame;
use rand_pcg::Pcg32;
use std::alloc::Global;
use trial_cases::below;

/// A carrier that does with frames as is drawn.
#[derive(Drop)]
pub(crate) struct Carrier {
    under_way: Vec<Posted>,
    /// By the panel to which frames came, and of those by their sender, the latest tick in which one was handed out.
    latest: [u64; 64],
    pub(crate) lost: u64,
    pub(crate) doubled: u64,
    pub(crate) delayed: u64,
    /// The frames that come behind one which their sender handed out later.
    pub(crate) turned: u64,
}

impl Carrier {
    pub(crate) fn new(alloc: Global) -> Carrier {
        Carrier {
            under_way: Vec::new(alloc),
            latest: [0; 64],
            lost: 0,
            doubled: 0,
            delayed: 0,
            turned: 0,
        }
    }

    /// Takes a frame to a panel, to come in the next tick: of eight frames one is lost and one comes twice, and of
    /// three that come one is delayed by up to 40 ticks.
    pub(crate) fn post(
        &mut self,
        frame: &Frame,
        at: u8,
        now: u64,
        draws: &mut Pcg32,
    ) -> Result<()> {
        let times = match below(draws, 8) {
            0 => {
                self.lost = self.lost.saturating_add(1);
                0
            }
            1 => {
                self.doubled = self.doubled.saturating_add(1);
                2
            }
            _ => 1,
        };
        for _time in 0..times {
            let mut due = now.saturating_add(1);
            if below(draws, 3) == 0 {
                self.delayed = self.delayed.saturating_add(1);
                due = due.saturating_add(below(draws, 40)).saturating_add(1);
            }
            self.under_way.push(Posted {
                at,
                frame: *frame,
                sent: now,
                due,
            })?;
        }
        Ok(())
    }

    /// The frames that come in a tick.
    pub(crate) fn due(&mut self, alloc: Global, now: u64) -> Result<Vec<Posted>> {
        let mut due = Vec::new(alloc);
        let mut later = Vec::new(alloc);
        for posted in &self.under_way {
            if posted.due <= now {
                due.push(*posted)?;
            } else {
                later.push(*posted)?;
            }
        }
        self.under_way = later;
        for posted in &due {
            self.count_turned(posted);
        }
        Ok(due)
    }

    fn count_turned(&mut self, posted: &Posted) {
        if let Some(latest) = self
            .latest
            .get_mut(place_between(posted.at, posted.frame.from))
        {
            if posted.sent < *latest {
                self.turned = self.turned.saturating_add(1);
            } else {
                *latest = posted.sent;
            }
        }
    }
}
