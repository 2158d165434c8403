ghost use Rattle.std.specs.Prelude.{◌≡◌, codes, option_map};
ghost use Rattle.serde_json.specs.View.{view};
ghost use Rattle.desk_bodies.specs.Bodies.{code_under, code_said, engineer_under, number_under, small_count};

use serde_json::Value;
use site_types::{Label, read_code, read_name};

// What stands under `code`: a code, or none.
pub(crate) fn code(value: &Value) -> Option<Option<Label>>
    ensures { option_map (λ code. option_map (λ label. label.bytes) code) result
        ≡ code_under (view value.now) }
{
    match value.get("code").and_then(Value::as_str) {
        Some(text) => code_of(text.as_bytes()),
        None => None,
    }
}

fn code_of(text: &[u8]) -> Option<Option<Label>>
    ensures { option_map (λ code. option_map (λ label. label.bytes) code) result
        ≡ code_said text.now }
{
    if text == b"-".as_slice() {
        return Some(None);
    }
    match read_code(text) {
        Some(code) => Some(Some(code)),
        None => None,
    }
}

// The number under a key.
pub(crate) fn number(value: &Value, key: &str) -> Option<u32>
    ensures { result ≡ number_under key.now (view value.now) }
{
    match value.get(key).and_then(Value::as_u64) {
        Some(number) => small(number),
        None => None,
    }
}

fn small(number: u64) -> Option<u32>
    ensures { result ≡ small_count number }
{
    if number < 1 << 32 {
        Some(number as u32)
    } else {
        None
    }
}

// The name of the engineer.
pub(crate) fn engineer(value: &Value) -> Option<Label>
    ensures { option_map (λ label. label.bytes) result ≡ engineer_under (view value.now) }
{
    match value.get("engineer").and_then(Value::as_str) {
        Some(text) => read_name(text.as_bytes()),
        None => None,
    }
}
