ghost use Rattle.panel_laws.specs.TimelineLaws.{CountersAddUp, EntriesAreCountedOnce, StepsRise, ToldTicksAreSteps};
ghost use Rattle.panel_laws.specs.TimelineLaws.{UntoldTicksChangeNothing};

/// The ticks of a timeline's steps rise, are at least 1 and don't pass the last tick.
pub fn steps_rise()
    ensures { StepsRise }
{}

/// Each tick in which a face changed or something was answered has its step.
pub fn told_ticks_are_steps()
    ensures { ToldTicksAreSteps }
{}

/// **Between steps nothing happens that a text could tell**: no face changes, nothing is answered, and no
/// turn of Keep fails.
pub fn untold_ticks_change_nothing()
    ensures { UntoldTicksChangeNothing }
{}

/// Each entry into the fire alarm condition is counted by exactly one turn of Keep, or is yet to be counted.
pub fn entries_are_counted_once()
    ensures { EntriesAreCountedOnce }
{}

/// **The counter of a panel that nobody cleared is the one at opening and the entries that were counted**, up
/// to 999,999.
pub fn counters_add_up()
    ensures { CountersAddUp }
{}
