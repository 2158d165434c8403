//! Laws on sections and on what is kept: each is the contract of a function that does nothing.

ghost use Rattle.site_types.specs.Changes.{KeptAreChanges};
ghost use Rattle.site_types.specs.Sections.{SectionsHold};

/// The section of an address holds the addresses behind the place where it begins, up to the one where it
/// ends, and no others.
pub fn sections_hold()
    ensures { SectionsHold }
{}

/// An operation of a panel changes what is retained, and is on a setting, exactly where it is one of those
/// that are kept over a power cut.
pub fn kept_are_changes()
    ensures { KeptAreChanges }
{}
