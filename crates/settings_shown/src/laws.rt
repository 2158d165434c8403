//! Laws on settings without strange bits: each is the contract of a function that does nothing.

ghost use Rattle.settings_shown.specs.Shown.{BitsHaveThings, InForceAreShown, NoStrangeBitsCome};

/// The change that an operation makes brings settings no bit of a point, a zone or an output that the site hasn't.
pub fn no_strange_bits_come()
    ensures { NoStrangeBitsCome }
{}

/// Settings that are in force, and have no strange bits, are mask by mask what the rules show.
pub fn in_force_are_shown()
    ensures { InForceAreShown }
{}

/// Each bit of settings without strange bits is of a point, a zone or an output that the site has, with that address
/// or number.
pub fn bits_have_things()
    ensures { BitsHaveThings }
{}
