ghost use Rattle.later_operations.specs.Words.{WordsStay, ToldStay, KeptWordsStay, RingStays};

/// What is done in a tick or later changes no word that was made up to that tick.
pub fn words_stay()
    ensures { WordsStay }
{}

/// What is done in a tick or later changes nothing of whether a word that was made up to that tick tells a fault.
pub fn told_stay()
    ensures { ToldStay }
{}

/// What is done in a tick or later changes no word that a panel kept of another up to that tick.
pub fn kept_words_stay()
    ensures { KeptWordsStay }
{}

/// What is done in a tick or later changes nothing of what befell the ring of panels up to that tick.
pub fn ring_stays()
    ensures { RingStays }
{}
