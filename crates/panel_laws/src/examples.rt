ghost use Rattle.panel_laws.specs.Examples.{FiveInATick, DeniedWithoutACode, TwiceTheSame, NotStored, ClearedTwice};
ghost use Rattle.panel_laws.specs.AlarmExamples.{OneConfirms, OneAgainOrTwo, TwoConfirm, TwoRelease, Goes};
ghost use Rattle.panel_laws.specs.AlarmExamples.{GoesInGroups, GoesSlowly};
ghost use Rattle.panel_laws.specs.RunExamples.{ZoneInBothOrders, CountInBothOrders, OutputInBothOrders};
ghost use Rattle.panel_laws.specs.RunExamples.{BuzzerInBothOrders, ResetInBothOrders};
ghost use Rattle.panel_laws.specs.OutputExamples.{Silenced, NotSilenced, Delayed, Overridden, AtOnce, Disabled};
ghost use Rattle.panel_laws.specs.OutputExamples.{ConfirmedWhileOn, LastsFrom};

/// What the definition of operations gives for small cases: five in a tick, one without a code, the same
/// twice, one that could not be stored, and two that wait for a turn of Keep.
pub fn operations_of_small_cases()
    ensures five { FiveInATick }
    ensures denied { DeniedWithoutACode }
    ensures twice { TwiceTheSame }
    ensures store { NotStored }
    ensures cleared { ClearedTwice }
{}

/// What the definition of outputs gives for small cases: silences and a resound, a delay, an override, a call
/// point, delays that are off, a disabling, and confirmations.
pub fn outputs_of_small_cases()
    ensures silenced { Silenced }
    ensures relay { NotSilenced }
    ensures delayed { Delayed }
    ensures overridden { Overridden }
    ensures at_once { AtOnce }
    ensures disabled { Disabled }
    ensures confirmed { ConfirmedWhileOn }
    ensures lasts { LastsFrom }
{}

/// What the definitions of coincidence give for small cases of each type, with a reset, a disabling, a test
/// and a cancelling.
pub fn alarms_of_small_cases()
    ensures plain { OneConfirms }
    ensures type_a { OneAgainOrTwo }
    ensures type_b { TwoConfirm }
    ensures type_c { TwoRelease }
{}

/// What the definition of the words kept gives for small rings.
pub fn words_of_small_rings()
    ensures three { Goes }
    ensures five { GoesInGroups }
{}

/// What goes round a long ring in reversed order, link by link in every other tick.
pub fn words_of_a_long_ring()
    ensures { GoesSlowly }
{}

/// What the definitions of the whole give for one detector in alarm, in canonical and in reversed order: when
/// its zone is in alarm, when that is counted, when its output is on, what the buzzer sounds, and when the
/// zone is shown again after a reset.
pub fn one_run_in_both_orders()
    ensures zone { ZoneInBothOrders }
    ensures counted { CountInBothOrders }
    ensures output { OutputInBothOrders }
    ensures buzzer { BuzzerInBothOrders }
    ensures reset { ResetInBothOrders }
{}
