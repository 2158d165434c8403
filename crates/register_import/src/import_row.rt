ghost use Rattle.std.specs.Prelude.{◌≡◌, option_map};
ghost use Rattle.csv.specs.Records.{fields_of};
ghost use Rattle.register_import.specs.Rows.{bad_engineer, bad_form, bad_number, bad_point, four};
ghost use Rattle.register_import.specs.Rows.{names_point, row_spelled, small_number};
ghost use Rattle.site_types.specs.Names.{name_of};
ghost use Rattle.site_types.specs.Valid.{IsValid};

use crate::four_fields::FourFields;
use csv::ByteRecord;
use service_keepers::Visit;
use site_types::{Label, Site, Thing, read_name, read_number};

/// A row of a file: a visit, and a point that it tested.
#[derive(Clone, Copy)]
pub(crate) struct ImportRow {
    pub(crate) visit: Visit,
    pub(crate) point: Label,
}

impl ImportRow {
    ghost use Rattle.register_import.specs.Views.{four_view, read_view};

    // The row that a record spells, or why it is refused.
    pub(crate) fn read(site: &Site, line: &ByteRecord) -> Result<ImportRow, u8>
        requires { IsValid site.now }
        ensures { read_view result ≡ row_spelled site.now (four (fields_of line.now)) }
    {
        match FourFields::of(line) {
            Some(fields) => ImportRow::spelled(site, &fields),
            None => Err(BAD_FORM),
        }
    }

    // The row that four fields spell.
    fn spelled(site: &Site, fields: &FourFields) -> Result<ImportRow, u8>
        requires { IsValid site.now }
        ensures { read_view result ≡ row_spelled site.now (Some (four_view fields.now)) }
    {
        let (Some(number), Some(day)) = (small_number(fields.visit), small_number(fields.day))
        else {
            return Err(BAD_NUMBER);
        };
        let Some(engineer) = read_name(fields.engineer) else {
            return Err(BAD_ENGINEER);
        };
        let Some(point) = point_named(site, fields.point) else {
            return Err(BAD_POINT);
        };
        Ok(ImportRow {
            visit: Visit {
                number,
                day,
                engineer,
            },
            point,
        })
    }
}

/// The row hasn't four fields, or the header differs.
pub(crate) const BAD_FORM: u8 = 1;
/// The visit or the day isn't a number below 2 to the 32nd.
const BAD_NUMBER: u8 = 2;
/// The engineer isn't a name.
const BAD_ENGINEER: u8 = 3;
/// The point isn't the site's.
const BAD_POINT: u8 = 4;
/// Another visit has the number.
pub(crate) const OTHER_VISIT: u8 = 5;

// The number that a text spells, if it lies below 2 to the 32nd.
fn small_number(text: &[u8]) -> Option<u32>
    ensures { result ≡ small_number text.now }
{
    let number = read_number(text)?;
    if number < 1 << 32 {
        Some(number as u32)
    } else {
        None
    }
}

ghost use Rattle.std.specs.Prelude.{Some, None, if◌then◌else◌};

// The name that a text spells, if it is that of a point of the site.
fn point_named(site: &Site, text: &[u8]) -> Option<Label>
    requires { IsValid site.now }
    ensures { option_map (λ label. label.bytes) result
        ≡ (if names_point site.now text.now then Some text.now else None) }
{
    match site.find(text) {
        Some(Thing::Point(place)) => match site.points.get(place as usize) {
            Some(point) => Some(point.name),
            None => None,
        },
        _ => None,
    }
}
