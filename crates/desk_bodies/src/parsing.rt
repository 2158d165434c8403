ghost use Rattle.std.specs.Prelude.{◌≡◌, IfOk};
ghost use Rattle.serde_json.specs.Data.{Data};
ghost use Rattle.serde_json.specs.View.{view};
ghost use Rattle.desk_bodies.specs.Bodies.{IsJson, has_members as has_so_many_members};

use crate::refusal::BodyRefusal;
use serde_json::Value;
use std::alloc::Global;

// The JSON value that a body spells.
pub(crate) fn parse(alloc: Global, body: &[u8]) -> Result<Value, BodyRefusal>
    ensures ok { IfOk result (λ value. IsJson body.now (view value)) }
    ensures bad { result ≡ Err BodyRefusal.BadForm → (said : Data) → IsJson body.now said → ⊥ }
{
    let Ok(text) = str::from_utf8(body) else {
        return Err(BodyRefusal::BadForm);
    };
    match Value::from_str(alloc, text) {
        Ok(value) => Ok(value),
        Err(error) => {
            if error.is_memory() {
                Err(BodyRefusal::NoMemory)
            } else {
                Err(BodyRefusal::BadForm)
            }
        }
    }
}

// Whether a value is an object with so many keys.
pub(crate) fn has_members(value: &Value, count: usize) -> bool
    ensures { result ≡ has_so_many_members count (view value.now) }
{
    match value.as_object() {
        Some(map) => map.len() == count,
        None => false,
    }
}
