//! Laws of imports: each is the contract of a function that does nothing.

ghost use Rattle.register_import.specs.Laws.{ImportsActOnce, ImportsAreCompleted};

/// A file that was imported and is imported again is accepted, changes nothing, and is told by the same numbers.
pub fn imports_act_once()
    ensures { ImportsActOnce }
{}

/// A file of which some first rows were put before the keeper failed or memory ran out is accepted again, and
/// imported again it leaves what one import leaves, and is told by the same numbers.
pub fn imports_are_completed()
    ensures { ImportsAreCompleted }
{}
