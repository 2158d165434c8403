/// What an output drives.
#[derive(Clone, Copy, Debug, Default, PartialEq, Eq)]
pub enum OutputKind {
    /// An alarm device, which a silence holds back.
    #[default]
    Sounder,
    /// The line to the brigade, which confirms.
    Routing,
    /// Fire protection equipment, which confirms.
    Protection,
    /// Anything else.
    Relay,
}
