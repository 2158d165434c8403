//! Going through the points of the register.

ghost use Rattle.std.specs.Prelude.{◌≡◌, ◌<◌, ◌≤◌, All, IfErr, IfOk, IfSome, is_some, length, map};
ghost use Rattle.service_keepers.specs.Tables.{last_day_of};
ghost use Rattle.service_register.specs.Answers.{HasRegisterCause, IsOfKeeper};
ghost use Rattle.service_register.specs.Listed.{listed_row};
ghost use Rattle.service_register.specs.Points.{lists_point, is_before, untested};

use crate::listed_point::ListedPoint;
use crate::refusal::RegisterRefusal;
use service_keepers::Keeper;
use site_types::Label;
use std::alloc::Global;

// The name of a point, if it is among these.
pub(crate) fn name_in(points: &[ListedPoint], name: &str) -> Option<Label>
    ensures variant { is_some result ≡ lists_point name.now (map listed_row points.now) }
    ensures value { IfSome result (λ label. label.bytes ≡ name.now) }
{
    for point in points {
        if point.name.as_str() == name {
            return Some(point.name);
        }
    }
    None
}

// The places of those points that haven't been tested since a day.
pub(crate) fn untested_among<R: Keeper>(
    alloc: Global,
    points: &[ListedPoint],
    keeper: &mut R,
    day: u32,
) -> Result<Vec<u16>, RegisterRefusal>
    requires { length points.now ≤ 65536 }
    ensures ok { IfOk result (λ places. IfSome (R.tables keeper.old)
        (λ kept. places.items ≡ untested day kept (map listed_row points.now))) }
    ensures within { IfOk result
        (λ places. All (λ place. place < length points.now) places.items) }
    ensures refusals { IfErr result IsOfKeeper }
    ensures same { R.tables keeper.new ≡ R.tables keeper.old }
    ensures cause { HasRegisterCause (R.faults keeper.old) (R.faults keeper.new) result }
{
    let mut places = Vec::new(alloc);
    for (place, point) in points.iter().enumerate() {
        if is_untested(point, keeper, day)? && places.push(place as u16).is_err() {
            return Err(RegisterRefusal::NoMemory);
        }
    }
    Ok(places)
}

// Whether a point hasn't been tested since a day.
fn is_untested<R: Keeper>(
    point: &ListedPoint,
    keeper: &mut R,
    day: u32,
) -> Result<bool, RegisterRefusal>
    ensures ok { IfOk result (λ due. IfSome (R.tables keeper.old)
        (λ kept. due ≡ is_before day (last_day_of point.now.name.bytes kept))) }
    ensures refusals { IfErr result IsOfKeeper }
    ensures same { R.tables keeper.new ≡ R.tables keeper.old }
    ensures cause { HasRegisterCause (R.faults keeper.old) (R.faults keeper.new) result }
{
    let last = keeper.last_day(&point.name)?;
    Ok(is_before(last, day))
}

// Whether a last day is before another, or there is none.
fn is_before(last: Option<u32>, day: u32) -> bool
    ensures { result ≡ is_before day last }
{
    match last {
        Some(last) => last < day,
        None => true,
    }
}
