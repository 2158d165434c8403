use face_text::Group;
use site_types::Buzzer;

/// What one line of a page tells.
#[derive(Clone, Copy)]
pub enum Change {
    /// The thing of a group with a number, from 1 on, is so now, or isn't.
    Thing { group: Group, number: u8, on: bool },
    /// Whether the delays are on.
    Delays(bool),
    Buzzer(Buzzer),
    Counter(u32),
}
