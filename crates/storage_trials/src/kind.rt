/// What a case tries.
#[derive(Clone, Copy)]
pub(crate) enum Kind {
    /// `cut-disk TEXT CALLS BYTES: STEP, STEP` and so on: a disk in memory that holds a text and has a log for so many
    /// calls and written bytes, and the files that a cut leaves behind each call.
    CutDisk,
    /// `sound-disk: STEP, STEP` and so on: an empty disk in memory whose calls never fail.
    SoundDisk,
    /// `real-disk PATH: STEP, STEP` and so on: a new file.
    RealDisk,
    /// `streams ROOM`: whether each stream in memory is made, sinks with so much room.
    Streams,
    /// `shelf SHELF: STEP, STEP` and so on: a shelf over `memory`, `sound` memory or a new folder.
    Shelf,
    /// `open LENGTH: PLACE is BYTE BYTE, ..`: a file of so many bytes that begins as a journal does and has these bytes
    /// from these places on, else zeros.
    Open,
    /// `open-text "TEXT"`: a file that is no journal, with bars for line ends.
    OpenText,
    /// `last-commit N`: a new journal in which so many entries are kept one by one, and the files that a cut within the
    /// last commit leaves.
    LastCommit,
    /// `failing CALLS COMMITS`: so many commits in a new journal while a call fails, for each of the first calls.
    Failing,
    /// `created COUNTER COUNTER ..`: a journal that is made with eight counters.
    Created,
}

/// The kinds by name.
pub(crate) const KINDS: [(&str, Kind); 10] = [
    ("cut-disk", Kind::CutDisk),
    ("sound-disk", Kind::SoundDisk),
    ("real-disk", Kind::RealDisk),
    ("streams", Kind::Streams),
    ("shelf", Kind::Shelf),
    ("open", Kind::Open),
    ("open-text", Kind::OpenText),
    ("last-commit", Kind::LastCommit),
    ("failing", Kind::Failing),
    ("created", Kind::Created),
];
