ghost use Rattle.run_text.specs.RunPromises.{PromisesAreKept};

/// **A run of a valid site keeps the promises at the end of each tick**, at all panels and over all operations,
/// whatever the orders of turns: zones and outputs that are due are shown, none is shown without a cause, and what
/// was answered as done is committed.
pub fn promises_are_kept()
    ensures { PromisesAreKept }
{}
