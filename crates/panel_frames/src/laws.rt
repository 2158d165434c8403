//! Laws on printing and reading: each is the contract of a function that does nothing.

ghost use Rattle.panel_frames.specs.Laws.{PrintedFramesAreRead, ReadBytesArePrinted, ReadFramesAreInGrammar};

/// A frame in the grammar, printed, is read as itself. So no two of them have the same bytes.
pub fn printed_frames_are_read()
    ensures { PrintedFramesAreRead }
{}

/// Bytes that are read as a frame are those that are printed of it. So no two texts of bytes are read as one
/// frame.
pub fn read_bytes_are_printed()
    ensures { ReadBytesArePrinted }
{}

/// A frame that is read is in the grammar.
pub fn read_frames_are_in_the_grammar()
    ensures { ReadFramesAreInGrammar }
{}
