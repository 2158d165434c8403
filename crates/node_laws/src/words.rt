ghost use Rattle.node_laws.specs.WordsKept.{TurnsGoByWordsKept};

/// A turn of a panel by itself goes by the words that it kept when it made the turn, whatever was done or came later.
pub fn turns_go_by_words_kept()
    ensures { TurnsGoByWordsKept }
{}
