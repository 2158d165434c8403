ghost use Rattle.std.specs.Prelude.{◌≡◌};
ghost use Rattle.cause_effect.specs.declared.refusal.PlanRefusal.TheVariants.{NoMemory};

use tick_units::{Items, NoMemory};

/// Why there is no plan.
#[derive(Drop)]
pub enum PlanRefusal {
    /// A marker depends on itself: the places of the markers of a cycle.
    Cycle { markers: Items<u16> },
    NoMemory,
}

impl From<NoMemory> for PlanRefusal {
    ghost from_gives = { λ _ e. e ≡ NoMemory };

    fn from(_refused: NoMemory) -> PlanRefusal {
        PlanRefusal::NoMemory
    }
}
