ghost use Rattle.panel_laws.specs.StoringLaws.{KeepAnswersTell, KeepFailsByTheDisk, SoundTurnsSucceed};

/// A turn of Keep fails only with a failed call of the disk in it, where its mending and its committing do.
pub fn keep_fails_by_the_disk()
    ensures { KeepFailsByTheDisk }
{}

/// A turn in which neither mending nor committing fails doesn't fail, whatever an earlier one left: one failure makes
/// no later one. A turn with nothing to mend and nothing to commit is idle.
pub fn sound_turns_succeed()
    ensures { SoundTurnsSucceed }
{}

/// A turn answers "not stored" exactly where it failed; else "idle" exactly where there was nothing to commit, and
/// "stored" where there was.
pub fn keep_answers_tell()
    ensures { KeepAnswersTell }
{}
