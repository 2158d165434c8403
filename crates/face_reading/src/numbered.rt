use face_text::Group;

/// The thing of a group with a number, from 1 on.
#[derive(Clone, Copy)]
pub struct Numbered {
    pub group: Group,
    pub number: u8,
}
