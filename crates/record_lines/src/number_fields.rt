//! The numbers of a line.

ghost use Rattle.std.specs.Prelude.{◌≡◌};
ghost use Rattle.record_lines.specs.Events.{has_event_numbers};

use crate::form::EventForm;
use line_fields::{field, is_number};

/// Whether the numbers of a line are of the record's form.
pub fn has_numbers(form: EventForm, text: &[u8]) -> bool
    ensures { result ≡ has_event_numbers form text.now }
{
    match form {
        EventForm::Supply(..) | EventForm::Link(_) | EventForm::Op(_) => is_number(field(text, 1)),
        EventForm::Cable(_) => {
            is_number(field(text, 1)) && is_number(field(text, 2)) && is_number(field(text, 3))
        }
        EventForm::Point(_) | EventForm::Routing => true,
    }
}
