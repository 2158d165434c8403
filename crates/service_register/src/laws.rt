//! Laws of the register: each is the contract of a function that does nothing.

ghost use Rattle.service_register.specs.Laws.{TestsActOnce, VisitsActOnce};

/// A visit or a test that was put, and is put again, is answered with Ok or a fault of the keeper, and changes
/// nothing.
pub fn calls_act_once()
    ensures visits { VisitsActOnce }
    ensures tests { TestsActOnce }
{}
