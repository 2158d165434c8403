ghost use Rattle.panel_laws.specs.BatchFits.{BatchesFit, ChangesHavePlaces, FewWait};
ghost use Rattle.panel_laws.specs.BatchLaws.{ClearedCountsFromZero, DoneIsKept, SettingsMakeChanges};

/// **What is answered as done is kept**: the change of each operation that was done stands in the batch of a
/// turn of Keep that did not fail, in the tick of the answer. Only a disabling, an enabling, a test and its
/// end, delays and a clear make a change.
pub fn done_is_kept()
    ensures { DoneIsKept }
{}

/// Each of these makes one, at a panel that has what the operation names.
pub fn settings_make_changes()
    ensures { SettingsMakeChanges }
{}

/// **The counter of a panel that was cleared is what was counted since**, up to 999,999. The batch that
/// clears it counts first, so the entries that it counts are cleared with it.
pub fn cleared_counts_from_zero()
    ensures { ClearedCountsFromZero }
{}

/// At most 64 operations wait for Keep at any time, and at most 32 once it has had its turn in a tick.
pub fn few_operations_wait()
    ensures { FewWait }
{}

/// A batch has at most 72 changes: a count for each panel, and the operations that wait. Each is of the site.
pub fn batches_fit()
    ensures { BatchesFit }
{}

/// What such a change names has a place in what is retained, and a point's address lies within the loops of the site's
/// format.
pub fn changes_have_places()
    ensures { ChangesHavePlaces }
{}
