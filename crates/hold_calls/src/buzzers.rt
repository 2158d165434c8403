ghost use Rattle.hold_calls.specs.HoldLaws.{HeldBuzzer, HeldNews};
ghost use Rattle.hold_calls.specs.ToldLaws.{ToldBuzzer, ToldNews};

/// The last tick of news by the turns of a run is that of what they are told.
pub fn told_news()
    ensures { ToldNews }
{}

/// In the ring it is that of the rules.
pub fn held_news()
    ensures { HeldNews }
{}

/// The buzzer after the turns of a run sounds by what they are told.
pub fn told_buzzer()
    ensures { ToldBuzzer }
{}

/// In the ring it sounds as the rules say.
pub fn held_buzzer()
    ensures { HeldBuzzer }
{}
