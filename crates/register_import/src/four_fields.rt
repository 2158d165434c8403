ghost use Rattle.std.specs.Prelude.{◌≡◌, option_map};
ghost use Rattle.csv.specs.Records.{fields_of};

use csv::ByteRecord;

/// The fields of a row that has four.
#[derive(Clone, Copy)]
pub(crate) struct FourFields<'a> {
    pub(crate) visit: &'a [u8],
    pub(crate) day: &'a [u8],
    pub(crate) engineer: &'a [u8],
    pub(crate) point: &'a [u8],
}

impl<'a> FourFields<'a> {
    ghost use Rattle.register_import.specs.Rows.{are_four, four};
    ghost use Rattle.register_import.specs.Views.{four_view};

    // The fields of a record, if there are four.
    pub(crate) fn of(line: &'a ByteRecord) -> Option<FourFields<'a>>
        ensures { option_map four_view result ≡ four (fields_of line.now) }
    {
        if line.len() != 4 {
            return None;
        }
        Some(FourFields {
            visit: line.get(0)?,
            day: line.get(1)?,
            engineer: line.get(2)?,
            point: line.get(3)?,
        })
    }

    // Whether the fields are these texts.
    pub(crate) fn are(&self, visit: &[u8], day: &[u8], engineer: &[u8], point: &[u8]) -> bool
        ensures { result ≡ are_four (four_view self.now) visit.now day.now engineer.now point.now }
    {
        self.visit == visit && self.day == day && self.engineer == engineer && self.point == point
    }
}
