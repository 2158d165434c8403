ghost use Rattle.std.specs.Prelude.{◌≡◌};
ghost use Rattle.plain_words.specs.Judging.{judged};
ghost use Rattle.plain_words.specs.ZoneStates.{zone_in_state as zone_in_state_by};

use crate::evidence::Evidence;
use tick_units::Tick;

/// What a zone may be in, as a panel tells it of its zones; a zone may be in several.
#[derive(Clone, Copy)]
pub(crate) enum ZoneState {
    Alarm,
    Manual,
    Released,
    First,
}

impl Evidence<'_> {
    /// Whether a zone is in a state at a tick.
    pub(crate) fn zone_in_state(&self, state: ZoneState, zone: usize, tick: Tick) -> bool
        ensures { result ≡ judged (zone_in_state_by state) self.now zone tick.0 }
    {
        match state {
            ZoneState::Alarm => self.is_in_alarm(zone, tick),
            ZoneState::Manual => self.is_by_hand(zone, tick),
            ZoneState::Released => self.is_released(zone, tick),
            ZoneState::First => self.is_first(zone, tick),
        }
    }
}
