ghost use Rattle.node_rules.specs.HandedStays.{WhatIsHandedStays};
ghost use Rattle.node_rules.specs.NodeLaws.{FramesAreShown, FramesOfTheRing, FramesStayInGrammar};
ghost use Rattle.node_rules.specs.NodeLaws.{OwnFaultsAreTold, TurnsGoByWhatCame, ZonesStayShown};
ghost use Rattle.node_rules.specs.QuietPanels.{QuietPanelsHaveNoEntries};
ghost use Rattle.node_rules.specs.RingLaws.{FaceOfTheRing, OwnWordOfTheRing};

/// A word that the panel made tells a fault exactly where one stood at the turn that made it.
pub fn own_faults_are_told()
    ensures { OwnFaultsAreTold }
{}

/// What a turn goes by are the frames that came before it, however the history goes on.
pub fn turns_go_by_what_came()
    ensures { TurnsGoByWhatCame }
{}

/// **The zones of another panel are shown as the newest word that came has them**, from the next face on after the
/// frame that brought it.
pub fn frames_are_shown()
    ensures { FramesAreShown }
{}

/// The zones of another panel stay shown while no frame comes.
pub fn zones_stay_shown()
    ensures { ZonesStayShown }
{}

/// **With the frames that the ring would hand it a panel by itself keeps the words that it would keep in the ring**,
/// its own but for what that tells of faults.
pub fn frames_of_the_ring()
    ensures { FramesOfTheRing }
{}

/// **A panel that gets frames in the grammar sends such ones**, each with words that its neighbours may get.
pub fn frames_stay_in_grammar()
    ensures { FramesStayInGrammar }
{}

/// **Where its links were up its own word is the ring's too**, with what that tells of faults.
pub fn own_word_of_the_ring()
    ensures { OwnWordOfTheRing }
{}

/// **And it shows all that it would show in the ring.**
pub fn face_of_the_ring()
    ensures { FaceOfTheRing }
{}

/// A panel on whose points nothing is reported never enters the fire alarm condition. So where nothing befalls the
/// other panels, a turn of Keep commits counts of the panel alone.
pub fn quiet_panels_have_no_entries()
    ensures { QuietPanelsHaveNoEntries }
{}

/// What a panel was handed up to a tick, and what it made of it, stays as more is done in that tick or later.
pub fn what_is_handed_stays()
    ensures { WhatIsHandedStays }
{}
