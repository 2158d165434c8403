ghost use Rattle.retained_journal.specs.Images.{EarlyHasRoom};

/// A journal whose chosen slot had a number of at most 2^62 at opening has room for the numbers of 1,000,000,001
/// commits: what is said of crashes under that room holds for it.
pub fn early_has_room()
    ensures { EarlyHasRoom }
{}
