ghost use Rattle.std.specs.Prelude.{◌≡◌, IfErr, IfOk, map};
ghost use Rattle.csv.specs.Records.{fields_of};
ghost use Rattle.register_import.specs.Judged.{HasRecords};
ghost use Rattle.register_import.specs.declared.refusal.ImportRefusal.TheVariants.{NoMemory};

use crate::refusal::ImportRefusal;
use csv::{ByteRecord, Error, ReaderBuilder};
use std::alloc::Global;

// The records of a file. A reader over bytes fails for want of memory alone.
pub(crate) fn records_of(alloc: Global, bytes: &[u8]) -> Result<Vec<ByteRecord>, ImportRefusal>
    ensures ok { IfOk result (λ records. HasRecords bytes.now (map fields_of records.items)) }
    ensures err { IfErr result (λ refusal. refusal ≡ NoMemory) }
{
    match read_all(alloc, bytes) {
        Ok(records) => Ok(records),
        Err(_) => Err(ImportRefusal::NoMemory),
    }
}

fn read_all(alloc: Global, bytes: &[u8]) -> Result<Vec<ByteRecord>, Error>
    ensures { IfOk result (λ records. HasRecords bytes.now (map fields_of records.items)) }
{
    let rdr = ReaderBuilder::new()
        .has_headers(false)
        .flexible(true)
        .from_reader(alloc, bytes);
    let mut rows = Vec::new(alloc);
    for row in rdr.into_byte_records() {
        if rows.push(row?).is_err() {
            return Err(Error::out_of_memory());
        }
    }
    Ok(rows)
}
