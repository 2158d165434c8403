ghost use Rattle.panel_rules.specs.Laws.{DueZoneIsKept, DueReleaseIsKept, DueHandIsKept, KeptZoneIsCaused};
ghost use Rattle.panel_rules.specs.Laws.{KeptReleaseIsCaused, KeptHandIsCaused};
ghost use Rattle.panel_laws.specs.HeardWords.{KeptIsWord, HeardIsStamp};
ghost use Rattle.panel_rules.specs.WordLaws.{KeptByTheRing, NewestOverChains};

/// After a tick a zone that is due at a panel is in alarm in the word that the panel keeps of the zone's
/// panel, whatever the orders of turns. It is due there once it was joined for long enough, so that each
/// panel shows it within the network's ticks.
pub fn due_zone_is_kept()
    ensures { DueZoneIsKept }
{}

/// A zone that is due for outputs at a panel is released in the word kept.
pub fn due_release_is_kept()
    ensures { DueReleaseIsKept }
{}

/// A zone that is due by hand at a panel is by hand in the word kept.
pub fn due_hand_is_kept()
    ensures { DueHandIsKept }
{}

/// A zone that is in alarm in a word kept was confirmed by an answer, and no floor before the word's stamp undid it.
pub fn kept_zone_is_caused()
    ensures { KeptZoneIsCaused }
{}

/// A zone that is released in a word kept was released by an answer, and no floor before the word's stamp undid it.
pub fn kept_release_is_caused()
    ensures { KeptReleaseIsCaused }
{}

/// A zone that is by hand in a word kept was called by an answer, and no floor before the word's stamp undid it.
pub fn kept_hand_is_caused()
    ensures { KeptHandIsCaused }
{}

/// What a panel keeps of another is what the ring keeps, turn by turn.
pub fn kept_by_the_ring()
    ensures { KeptByTheRing }
{}

/// The word kept of a panel is the one of the greatest stamp that came over any chain of turns, along links that
/// were up, in ticks that carried it.
pub fn newest_over_chains()
    ensures { NewestOverChains }
{}

/// **The word that a panel keeps of a panel is that panel's own word of the tick that was heard of it**, in every run,
/// whatever the orders of turns: what is kept is never mixed of two words, nor one that nobody made.
pub fn kept_is_word()
    ensures { KeptIsWord }
{}

/// What was heard of a panel is the stamp of the word that is kept of it.
pub fn heard_is_stamp()
    ensures { HeardIsStamp }
{}
