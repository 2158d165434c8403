//! Where the parts of a journal file stand, in bytes.

ghost use Rattle.std.specs.Prelude.{◌≡◌, ◌<◌};
ghost use Rattle.retained_journal.specs.Places.{cell_place as place_of_cell, most_cells, slot_place as place_of_slot};

/// The bytes with which each file begins.
pub(crate) const FILE_MARK: [u8; 8] = *b"FPANEL01";
/// The bytes before the cells.
pub(crate) const FRONT_BYTES: usize = 2_048;
/// The bytes of a whole file.
pub(crate) const WHOLE_BYTES: u64 = 39_937;
/// Where the digest of the site begins.
pub(crate) const DIGEST_PLACE: usize = 8;
/// Where the log gate stands.
pub(crate) const LOG_GATE: usize = 40;
/// Where slot A begins.
pub(crate) const FIRST_SLOT: usize = 64;
/// Where slot B begins.
pub(crate) const SECOND_SLOT: usize = 1_024;
/// The bytes of a slot.
pub(crate) const SLOT_BYTES: usize = 906;
/// Where the disabled points stand in a slot, 12 bytes for each loop.
pub(crate) const POINTS_PLACE: usize = 9;
/// Where the disabled zones do.
pub(crate) const ZONES_PLACE: usize = 393;
/// Where the disabled outputs do.
pub(crate) const OUTPUTS_PLACE: usize = 425;
/// Where it stands of which panels the delays are off.
pub(crate) const DELAYS_PLACE: usize = 457;
/// Where the counters stand.
pub(crate) const COUNTERS_PLACE: usize = 458;
/// Where the disabled points above address 96 do, in a wide journal.
pub(crate) const WIDE_POINTS_PLACE: usize = 490;
/// Where the zones in test do.
pub(crate) const TESTS_PLACE: usize = 874;
/// The bytes of a cell.
pub(crate) const CELL_BYTES: usize = 592;
/// The cells of a file.
pub(crate) const MOST_CELLS: u8 = 64;
/// The changes of a batch, at most.
pub(crate) const MOST_CHANGES: u8 = 72;
/// The number of the chosen slot, at most.
pub(crate) const MOST_NUMBER: u64 = 1 << 63;

// Where a slot begins.
pub(crate) fn slot_place(second: bool) -> usize
    ensures { result ≡ place_of_slot second }
{
    if second { SECOND_SLOT } else { FIRST_SLOT }
}

// Where a cell begins.
pub(crate) fn cell_place(cell: u8) -> u64
    ensures { result ≡ place_of_cell cell }
{
    FRONT_BYTES as u64 + CELL_BYTES as u64 * cell as u64
}
