ghost use Rattle.keep_batch.specs.MakingLaws.{BatchIs, BatchMayBeCommitted, BatchMayBeMade, FewEntriesAreNew};

/// **What is made is the batch of the rules**, where the entries are by panel how many aren't kept yet, and what waits
/// is what the rules let wait.
pub fn batch_is()
    ensures { BatchIs }
{}

/// In each tick of a run a panel enters the fire alarm condition once at most.
pub fn few_entries_are_new()
    ensures { FewEntriesAreNew }
{}

/// The batch of a run of a valid site may be made, up to its last tick.
pub fn batch_may_be_made()
    ensures { BatchMayBeMade }
{}

/// **A turn of Keep may commit it**: it has at most 72 changes, and the journal of the site can keep each.
pub fn batch_may_be_committed()
    ensures { BatchMayBeCommitted }
{}
