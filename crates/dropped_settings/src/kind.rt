/// What a setting may be of that goes by its name.
#[derive(Clone, Copy)]
pub enum Kind {
    Point,
    Zone,
    Output,
}
