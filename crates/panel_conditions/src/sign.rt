/// What a word tells of a zone.
#[derive(Clone, Copy)]
pub enum Sign {
    Alarm,
    Manual,
    Released,
    First,
}
