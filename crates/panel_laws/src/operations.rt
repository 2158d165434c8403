ghost use Rattle.panel_laws.specs.OperationLaws.{AnsweredOnce, AnswersAreToRequests, AnsweredByTheNextTick};
ghost use Rattle.panel_laws.specs.OperationLaws.{AnswersStay, OperationsAreOfSite, SettingsChangeOnce, KeptIsInForce};

/// Each operation has at most one answer.
pub fn answered_once()
    ensures { AnsweredOnce }
{}

/// What is answered was asked for, in the tick of its answer or the one before.
pub fn answers_are_to_requests()
    ensures { AnswersAreToRequests }
{}

/// An operation has its answer by the end of the tick after its own, whatever the orders of turns.
pub fn answered_by_the_next_tick()
    ensures { AnsweredByTheNextTick }
{}

/// A longer record never changes what was answered, nor what was done.
pub fn answers_stay()
    ensures { AnswersStay }
{}

/// A setting changes at most once in a tick.
pub fn settings_change_once()
    ensures { SettingsChangeOnce }
{}

/// Where each event is of the site, as a record's events are, each operation is at a panel of the site, which
/// has what it names.
pub fn operations_are_of_site()
    ensures { OperationsAreOfSite }
{}

/// What is kept over a power cut is, of each setting, the value that is in force from the next tick on.
pub fn kept_is_in_force()
    ensures { KeptIsInForce }
{}
