//! The lines that tell what came of an import.

ghost use Rattle.std.specs.Prelude.{◌≡◌};
ghost use Rattle.import_command.specs.Lines.{imported_line as imported_words, row_line as row_words};

use arrayvec::ArrayString;
use itoa::Buffer;
use register_import::Imported;

// How many visits and tests a file has.
pub(crate) fn imported_line(imported: &Imported) -> ArrayString<64>
    ensures { result.bytes ≡ imported_words imported.now }
{
    let mut digits = Buffer::new();
    let mut line = ArrayString::new();
    line.push_str("imported visits ");
    line.push_str(digits.format(imported.visits));
    line.push_str(" tests ");
    line.push_str(digits.format(imported.tests));
    line.push_str("\n");
    line
}

// The row that is refused, and why.
pub(crate) fn row_line(row: u64, why: u8) -> ArrayString<64>
    ensures { result.bytes ≡ row_words row why }
{
    let mut digits = Buffer::new();
    let mut line = ArrayString::new();
    line.push_str("refused row ");
    line.push_str(digits.format(row));
    line.push_str(" ");
    line.push_str(digits.format(why));
    line.push_str("\n");
    line
}
