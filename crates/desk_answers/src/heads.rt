ghost use Rattle.std.specs.Prelude.{◌≡◌, ◌≤◌, length};
ghost use Rattle.desk_answers.specs.AnswerHeads.{answer_head, phrase_of};

use crate::content::Content;
use arrayvec::ArrayString;
use desk_requests::Status;
use http::StatusCode;
use itoa::Buffer;

/// The head of an answer, up to and with its empty line.
pub fn head(status: Status, content: Content) -> ArrayString<160>
    ensures text { result.bytes ≡ answer_head status content }
    ensures short { length result.bytes ≤ 160 }
{
    let mut digits = Buffer::new();
    let mut text = ArrayString::new();
    text.push_str("HTTP/1.1 ");
    text.push_str(digits.format(status.number()));
    text.push_str(" ");
    text.push_str(phrase(status));
    text.push_str("\r\n");
    text.push_str(content.line());
    text.push_str("Connection: close\r\n\r\n");
    text
}

// The phrase that goes with a status.
fn phrase(status: Status) -> &'static str
    ensures text { result.now ≡ phrase_of status }
    ensures short { length result.now ≤ 32 }
{
    canonical_phrase(status)
}

fn canonical_phrase(status: Status) -> &'static str
    ensures { result.now ≡ phrase_of status }
{
    match StatusCode::from_u16(status.number()) {
        Ok(code) => code.canonical_reason().unwrap_or(""),
        Err(_) => "",
    }
}
