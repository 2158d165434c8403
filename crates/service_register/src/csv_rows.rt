//! The rows of the table that is exported. A writer over a vector fails for want of memory alone.

ghost use Rattle.std.specs.Prelude.{◌≡◌, ◌<◌, Some, All, IfErr, IfOk, IfSome, OnOk, length};
ghost use Rattle.std.specs.Prelude.{map};
ghost use Rattle.service_register.specs.Answers.{HasRegisterCause, IsOfKeeper};
ghost use Rattle.service_register.specs.Export.{Writes, csv_text, point_text, rows_text, three_fields};
ghost use Rattle.service_register.specs.Listed.{listed_row};
ghost use Rattle.service_register.specs.declared.refusal.RegisterRefusal.TheVariants.{NoMemory};

use crate::listed_point::ListedPoint;
use crate::refusal::RegisterRefusal;
use csv::{Writer, WriterBuilder};
use itoa::Buffer;
use service_keepers::Keeper;
use std::alloc::Global;

// The table of the points at some places.
pub(crate) fn table_of<R: Keeper>(
    alloc: Global,
    points: &[ListedPoint],
    keeper: &mut R,
    places: &[u16],
) -> Result<Vec<u8>, RegisterRefusal>
    requires { All (λ place. place < length points.now) places.now }
    ensures ok { IfOk result (λ bytes. IfSome (R.tables keeper.old)
        (λ kept. bytes.items ≡ csv_text kept (map listed_row points.now) places.now)) }
    ensures refusals { IfErr result IsOfKeeper }
    ensures same { R.tables keeper.new ≡ R.tables keeper.old }
    ensures cause { HasRegisterCause (R.faults keeper.old) (R.faults keeper.new) result }
{
    let mut writer = WriterBuilder::new().from_writer(Vec::new(alloc));
    write_row(&mut writer, b"point", b"zone", b"last")?;
    write_points(&mut writer, points, keeper, places)?;
    match writer.into_inner() {
        Ok(bytes) => Ok(bytes),
        Err(_) => Err(RegisterRefusal::NoMemory),
    }
}

// Writes the rows of the points at some places.
fn write_points<R: Keeper>(
    writer: &mut Writer<Vec<u8>>,
    points: &[ListedPoint],
    keeper: &mut R,
    places: &[u16],
) -> Result<(), RegisterRefusal>
    requires { All (λ place. place < length points.now) places.now }
    ensures ok { OnOk result (IfSome (R.tables keeper.old)
        (λ kept. Writes (λ v. Some v.items) writer.old writer.new
        (rows_text kept (map listed_row points.now) places.now))) }
    ensures refusals { IfErr result IsOfKeeper }
    ensures same { R.tables keeper.new ≡ R.tables keeper.old }
    ensures cause { HasRegisterCause (R.faults keeper.old) (R.faults keeper.new) result }
{
    for place in places {
        let point = &points[*place as usize];
        let last = keeper.last_day(&point.name)?;
        write_point(writer, point, last)?;
    }
    Ok(())
}

// Writes a row of three fields.
fn write_row(
    writer: &mut Writer<Vec<u8>>,
    first: &[u8],
    second: &[u8],
    third: &[u8],
) -> Result<(), RegisterRefusal>
    ensures ok { OnOk result (Writes (λ v. Some v.items) writer.old writer.new
        (three_fields first.now second.now third.now)) }
    ensures err { IfErr result (λ refusal. refusal ≡ NoMemory) }
{
    let fields: [&[u8]; 3] = [first, second, third];
    match writer.write_fields(&fields) {
        Ok(()) => Ok(()),
        Err(_) => Err(RegisterRefusal::NoMemory),
    }
}

// Writes the row of a point and its last day.
fn write_point(
    writer: &mut Writer<Vec<u8>>,
    point: &ListedPoint,
    last: Option<u32>,
) -> Result<(), RegisterRefusal>
    ensures ok { OnOk result (Writes (λ v. Some v.items) writer.old writer.new
        (point_text (listed_row point.now) last)) }
    ensures err { IfErr result (λ refusal. refusal ≡ NoMemory) }
{
    let name = point.name.as_str().as_bytes();
    let zone = point.zone.as_str().as_bytes();
    match last {
        Some(day) => {
            let mut digits = Buffer::new();
            write_row(writer, name, zone, digits.format(day).as_bytes())
        }
        None => write_row(writer, name, zone, b""),
    }
}
