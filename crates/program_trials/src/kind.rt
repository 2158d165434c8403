/// What a case tries. A site is a file; a record is a history, or a file whose name ends with `.record`.
#[derive(Clone, Copy)]
pub(crate) enum Kind {
    /// `call WORDS: RECORD; OPTIONS`: any words.
    Call,
    /// `run SITE: RECORD | RECORD; OPTIONS`: each record is run over the journal that the one before left. The options
    /// are those of the last run, and its text is told.
    Run,
    /// `pieces SITE: RECORD; of 1 2`: that a record which is read in pieces of one byte, of two, gives the same text.
    Pieces,
    /// `short-writes SITE: RECORD; of 1 2`: the same where a write takes at most one byte, at most two.
    ShortWrites,
    /// `failing-reads SITE: RECORD; OPTIONS`: each read fails once.
    FailingReads,
    /// `failing-writes SITE: RECORD; OPTIONS`: each write fails once.
    FailingWrites,
    /// `failing-disk SITE: RECORD; calls 1 to 120, LINE keeps LINE`: each call of the disk in that range fails once.
    /// What the first line acknowledges is told by the second where a file is opened again; with `drops`, isn't told.
    FailingDisk,
    /// `stops SITE: RECORD; OPTIONS`: what a stop at each call of the disk leaves.
    Stops,
    /// `move OLD NEW: RECORD | RECORD; OPTIONS`: a move over the journal that runs of OLD over these records left, and
    /// what runs of both sites then tell at their opening.
    Move,
    /// `move-stops OLD NEW: RECORD | RECORD; OPTIONS`: what a stop at each call of the two disks of a move leaves.
    MoveStops,
    /// `failing-move OLD NEW: RECORD | RECORD; OPTIONS`: each fetch, each call of the two disks and each write of a
    /// move fails once.
    FailingMove,
    /// `import SITE FILE: OPTIONS`: an import, and once more the same over the register that it left.
    Import,
    /// `failing-import SITE FILE: OPTIONS`: each fetch, each call of the keeper and each write of an import fails once,
    /// and then the same is imported again.
    FailingImport,
}

/// The kinds by name.
pub(crate) const KINDS: [(&str, Kind); 13] = [
    ("call", Kind::Call),
    ("run", Kind::Run),
    ("pieces", Kind::Pieces),
    ("short-writes", Kind::ShortWrites),
    ("failing-reads", Kind::FailingReads),
    ("failing-writes", Kind::FailingWrites),
    ("failing-disk", Kind::FailingDisk),
    ("stops", Kind::Stops),
    ("move", Kind::Move),
    ("move-stops", Kind::MoveStops),
    ("failing-move", Kind::FailingMove),
    ("import", Kind::Import),
    ("failing-import", Kind::FailingImport),
];
