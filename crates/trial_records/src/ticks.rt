use plain_history::Moment;
use site_types::Event;
use std::alloc::AllocError;
use tick_units::{Order, Seat, Task};

/// Puts the moments of a tick behind those before it: that it begins, what befalls, the turns in their order. Keep's
/// may fail.
pub fn push_tick(
    moments: &mut Vec<Moment>,
    events: &[Event],
    order: &Order,
    failed: bool,
) -> Result<(), AllocError> {
    moments.push(Moment::Began)?;
    for event in events {
        moments.push(Moment::Happened(*event))?;
    }
    for place in 0..order.len() {
        moments.push(turn_of(order.seat(place), failed))?;
    }
    Ok(())
}

fn turn_of(seat: Seat, failed: bool) -> Moment {
    match seat.task {
        Task::Keep => Moment::Kept { failed },
        task => Moment::Turned {
            panel: seat.panel,
            task,
        },
    }
}
