ghost use Rattle.std.specs.Prelude.{◌≡◌, ◌≤◌, IfOk, map};
ghost use Rattle.httparse.specs.Borrowed.{header_parts};
ghost use Rattle.desk_requests.specs.Asked.{head_asks, has_field as has_field_named, has_method as is_method_of};

use crate::body_length::{body_length, is_named};
use crate::route::Route;
use crate::routes::Routes;
use crate::status::Status;
use httparse::Header;

/// What the head of a request asks for, and how many bytes of body it announces.
#[derive(Clone, Copy)]
pub(crate) struct Asking {
    pub(crate) route: Route,
    pub(crate) length: usize,
}

// What a head with this method, target and fields asks for, or the first status that refuses it.
pub(crate) fn judge(
    routes: &Routes,
    panels: u8,
    method: &str,
    target: &str,
    fields: &[Header<'_>],
) -> Result<Asking, Status>
    ensures asks { result ≡ head_asks panels method.now target.now (map header_parts fields.now) }
    ensures short { IfOk result (λ asking. asking.length ≤ 65536) }
{
    let Some(route) = routes.find(panels, target) else {
        return Err(Status::NotFound);
    };
    if !has_method(route, method.as_bytes()) {
        return Err(Status::MethodNotAllowed);
    }
    if has_field(fields, b"transfer-encoding") {
        return Err(Status::NotImplemented);
    }
    if !route.is_posted() {
        return Ok(Asking { route, length: 0 });
    }
    match body_length(fields) {
        Ok(length) => Ok(Asking { route, length }),
        Err(status) => Err(status),
    }
}

fn has_method(route: Route, method: &[u8]) -> bool
    ensures { result ≡ is_method_of route method.now }
{
    if route.is_posted() {
        method == b"POST".as_slice()
    } else {
        method == b"GET".as_slice()
    }
}

// Whether a field has this name, which is written in small letters.
fn has_field(fields: &[Header<'_>], name: &[u8]) -> bool
    ensures { result ≡ has_field_named name.now (map header_parts fields.now) }
{
    for field in fields {
        if is_named(field, name) {
            return true;
        }
    }
    false
}
