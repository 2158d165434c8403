ghost use Rattle.std.specs.Prelude.{◌≡◌, ◌∷◌, IfOk, List};
ghost use Rattle.panel_rules.specs.Moments.{Moment as MomentOf, tick_of};
ghost use Rattle.plain_history.specs.Histories.{moment_of};

use crate::moment::Moment;
use tick_units::{NoMemory, Tick};

/// The tick that began last, after a moment. Where it can't be counted it counts as refused memory.
pub fn tick_after(tick: Tick, moment: &Moment) -> Result<Tick, NoMemory>
    ensures { IfOk result (λ after. (history : List MomentOf) → tick_of history ≡ tick.0
        → tick_of (moment_of moment.now ∷ history) ≡ after.0) }
{
    match moment {
        Moment::Began => {
            let after = tick.0.checked_add(1).ok_or(NoMemory)?;
            Ok(Tick(after))
        }
        Moment::Happened(_) => Ok(tick),
        Moment::Turned { .. } => Ok(tick),
        Moment::Kept { .. } => Ok(tick),
    }
}
