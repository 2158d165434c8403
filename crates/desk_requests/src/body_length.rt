ghost use Rattle.std.specs.Prelude.{◌≡◌, ◌≤◌, IfOk, map};
ghost use Rattle.httparse.specs.Borrowed.{header_parts};
ghost use Rattle.desk_requests.specs.Asked.{counted_length, has_name, length_name, only_length, field_values};

use crate::status::Status;
use httparse::Header;
use panel_edges::MOST_BODY_BYTES;
use site_types::read_number;

// The length that the fields announce of the body.
pub(crate) fn body_length(fields: &[Header<'_>]) -> Result<usize, Status>
    ensures value { result ≡ only_length (field_values length_name (map header_parts fields.now)) }
    ensures short { IfOk result (λ length. length ≤ 65536) }
{
    let mut found: Option<&[u8]> = None;
    for field in fields {
        if is_named(field, b"content-length") {
            if found.is_some() {
                return Err(Status::BadRequest);
            }
            found = Some(field.value);
        }
    }
    match found {
        Some(text) => read_length(text),
        None => Err(Status::LengthRequired),
    }
}

// Whether a field has this name, which is written in small letters.
pub(crate) fn is_named(field: &Header<'_>, name: &[u8]) -> bool
    ensures { result ≡ has_name name.now (header_parts field.now) }
{
    field.name.as_bytes().eq_ignore_ascii_case(name)
}

fn read_length(text: &[u8]) -> Result<usize, Status>
    ensures value { result ≡ counted_length text.now }
    ensures short { IfOk result (λ length. length ≤ 65536) }
{
    match read_number(text) {
        None => Err(Status::BadRequest),
        Some(number) if number <= MOST_BODY_BYTES as u64 => Ok(number as usize),
        Some(_) => Err(Status::BodyTooLarge),
    }
}
