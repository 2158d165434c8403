use site_types::{Answer, Heard, PointState, Site};
use std::alloc::{AllocError, Global};
use tick_units::Tick;

/// From a tick on a point, by its place, is in a state.
#[derive(Clone, Copy)]
pub struct Report {
    pub tick: u64,
    pub point: u16,
    pub state: PointState,
}

/// The state of a point in a tick: the last one that was reported, at first quiet.
pub fn state_at(reports: &[Report], point: u16, tick: u64) -> PointState {
    let mut state = PointState::Quiet;
    for report in reports {
        if report.point == point && report.tick <= tick {
            state = report.state;
        }
    }
    state
}

/// What the points answer in a tick, in the order of the site's list: those that are asked in it.
pub fn answers_at(
    alloc: Global,
    site: &Site,
    reports: &[Report],
    tick: u64,
) -> Result<Vec<Answer>, AllocError> {
    let mut answers = Vec::new(alloc);
    let within = tick % site.profile().round().max(1);
    let mut place: u16 = 0;
    for point in site.points.as_slice() {
        if within == (point.address as u64).saturating_sub(1) / 8 {
            answers.push(Answer {
                stamp: Tick(tick),
                point: place,
                heard: heard_of(state_at(reports, place, tick)),
            })?;
        }
        place = place.saturating_add(1);
    }
    Ok(answers)
}

fn heard_of(state: PointState) -> Heard {
    match state {
        PointState::Quiet => Heard::Quiet,
        PointState::Alarm => Heard::Alarm,
        PointState::Gone => Heard::Silent,
    }
}
