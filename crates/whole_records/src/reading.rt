//! Reading a record line by line.

ghost use Rattle.std.specs.Prelude.{◌≡◌, ◌++◌, ◌∷◌, [], IfErr, IfOk, OnOk};
ghost use Rattle.site_types.specs.Valid.{IsValid};
ghost use Rattle.whole_records.specs.Whole.{IsWhyRefused, IsWholeRecord};
ghost use Rattle.whole_records.specs.Ends.{is_end as ends_record};

use crate::record_refusal::RecordRefusal;
use record_lines::{Line, LineReader, Step};
use site_types::Site;
use std::alloc::Global;
use tick_units::{Items, NoMemory};

/// The lines of a record, the last of them `end`. Bytes behind it aren't looked at.
///
/// # Errors
///
/// `Line` with the first line that is refused, or where the bytes end before the line `end`. `NoMemory` where memory
/// was refused.
pub fn read_record(alloc: Global, site: &Site, bytes: &[u8]) -> Result<Items<Line>, RecordRefusal>
    requires { IsValid site.now }
    ensures whole { IfOk result (λ lines. IsWholeRecord site.now bytes.now lines) }
    ensures refused { IfErr result (IsWhyRefused site.now bytes.now) }
{
    let mut reader = LineReader::new();
    let mut lines = Vec::new(alloc);
    let mut left = bytes;
    while !left.is_empty() {
        let fed = reader.feed(site, left);
        let used = fed.used;
        let ends = is_end(&fed.step);
        match fed.step {
            Step::Need => return Err(RecordRefusal::Line(reader.finish())),
            Step::Refused(refusal) => return Err(RecordRefusal::Line(refusal)),
            Step::Line(line) => {
                keep(&mut lines, line)?;
                if ends {
                    return Ok(Items::from_vec(lines));
                }
                left = left.split_at(used).1;
            }
        }
    }
    Err(RecordRefusal::Line(reader.finish()))
}

fn is_end(step: &Step) -> bool
    ensures { result ≡ ends_record step.now }
{
    matches!(step, Step::Line(Line::End))
}

fn keep(lines: &mut Vec<Line>, line: Line) -> Result<(), NoMemory>
    ensures { OnOk result (lines.new.items ≡ lines.old.items ++ line ∷ []) }
{
    lines.push(line)?;
    Ok(())
}
