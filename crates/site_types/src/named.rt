use crate::label::Label;

/// What a name of the site stands for, by its place in the list of its kind.
#[derive(Clone, Copy, Debug, PartialEq, Eq)]
pub enum Thing {
    Point(u16),
    Zone(u16),
    Output(u16),
    Marker(u16),
}

/// A name of the site, with what it stands for.
#[derive(Clone, Copy)]
pub struct Named {
    pub name: Label,
    pub thing: Thing,
}
