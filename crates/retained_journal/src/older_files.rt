//! What files open to that were made before there were cells, or zones in test. Each function is a law: its contract
//! says it, and its body does nothing.

ghost use Rattle.retained_journal.specs.OlderFiles.{OpensToItsSlot, OpensWithoutTests};

/// A file that opens, with zeros from the log gate to slot A or where the cells' gates would be, opens to the state
/// of its chosen slot: a file that was made without cells keeps what it kept.
pub fn older_file_opens_to_its_slot()
    ensures { OpensToItsSlot }
{}

/// A file that opens, with zeros where its chosen slot holds the zones in test and no change of such a zone in a cell
/// that counts, opens with no zone in test.
pub fn older_file_opens_without_tests()
    ensures { OpensWithoutTests }
{}
