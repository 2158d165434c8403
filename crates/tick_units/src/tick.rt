ghost use Rattle.std.specs.Prelude.{◌≡◌, ◌+◌, ◌<◌, ◌≤◌, ◌↔◌, IsErr};
ghost use Rattle.tick_units.specs.Ticks.{last_tick};

/// A tick of the panel, from 1 on; 0 is the moment of opening. Half a second in site format 1, a quarter in format 2.
#[derive(Clone, Copy, Debug, Default, PartialEq, Eq, PartialOrd, Ord)]
pub struct Tick(pub u64);

/// The last tick that a run may have.
pub const LAST_TICK: u64 = 1_000_000_000;

/// There is no tick after the last one.
#[derive(Clone, Copy, Debug, PartialEq, Eq)]
pub struct TickLimit;

/// The tick after this one.
pub fn next_tick(tick: Tick) -> Result<Tick, TickLimit>
    ensures next { tick.0 < last_tick → result ≡ Ok (record { 0 = tick.0 + 1 }) }
    ensures limit { IsErr result ↔ (last_tick ≤ tick.0) }
{
    if tick.0 < LAST_TICK {
        Ok(Tick(tick.0 + 1))
    } else {
        Err(TickLimit)
    }
}
