ghost use Rattle.std.specs.Prelude.{◌≡◌, None, Some, IfOk, option_map};
ghost use Rattle.serde_json.specs.Data.{Data};
ghost use Rattle.serde_json.specs.View.{view};
ghost use Rattle.site_types.specs.Valid.{IsValid};
ghost use Rattle.desk_bodies.specs.Bodies.{IsJson, SaysBody, stop_of, visit_of};
ghost use Rattle.desk_bodies.specs.Views.{visit_view};

use crate::fields::{code, engineer, number};
use crate::parsing::{has_members, parse};
use crate::points::points;
use crate::refusal::BodyRefusal;
use crate::stop_body::StopBody;
use crate::visit_body::VisitBody;
use serde_json::Value;
use service_keepers::Visit;
use site_types::Site;
use std::alloc::Global;

/// What the body of a stop says.
pub fn read_stop(alloc: Global, body: &[u8]) -> Result<StopBody, BodyRefusal>
    ensures ok { IfOk result
        (λ stop. SaysBody stop_of body.now (option_map (λ label. label.bytes) stop.code)) }
    ensures bad { result ≡ Err BodyRefusal.BadForm → (said : Data) → IsJson body.now said
        → stop_of said ≡ None }
{
    let value = parse(alloc, body)?;
    if !has_members(&value, 1) {
        return Err(BodyRefusal::BadForm);
    }
    match code(&value) {
        Some(code) => Ok(StopBody { code }),
        None => Err(BodyRefusal::BadForm),
    }
}

/// What the body of a visit to a site says.
pub fn read_visit(alloc: Global, site: &Site, body: &[u8]) -> Result<VisitBody, BodyRefusal>
    requires { IsValid site.now }
    ensures ok { IfOk result (λ visit. SaysBody (visit_of site.now) body.now (visit_view visit)) }
    ensures bad { result ≡ Err BodyRefusal.BadForm → (said : Data) → IsJson body.now said
        → visit_of site.now said ≡ None }
{
    let value = parse(alloc, body)?;
    visit(alloc, site, &value)
}

fn visit(alloc: Global, site: &Site, value: &Value) -> Result<VisitBody, BodyRefusal>
    requires { IsValid site.now }
    ensures ok { IfOk result
        (λ visit. visit_of site.now (view value.now) ≡ Some (visit_view visit)) }
    ensures bad { result ≡ Err BodyRefusal.BadForm → visit_of site.now (view value.now) ≡ None }
{
    if !has_members(value, 5) {
        return Err(BodyRefusal::BadForm);
    }
    let (Some(code), Some(day), Some(engineer), Some(number)) = (
        code(value),
        number(value, "day"),
        engineer(value),
        number(value, "visit"),
    ) else {
        return Err(BodyRefusal::BadForm);
    };
    let points = points(alloc, site, value)?;
    Ok(VisitBody {
        code,
        visit: Visit {
            number,
            day,
            engineer,
        },
        points,
    })
}
