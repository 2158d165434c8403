ghost use Rattle.kept_words.specs.Newest.{KeptIsFirstNewest};

/// The word that is kept of another panel is the first of the newest that came, or the empty word.
pub fn kept_is_first_newest()
    ensures { KeptIsFirstNewest }
{}
