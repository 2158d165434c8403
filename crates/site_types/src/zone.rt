use crate::label::Label;
use crate::rule::Rule;

/// A zone of a panel.
#[derive(Clone, Copy)]
pub struct Zone {
    pub name: Label,
    /// 1 to the panels of the site.
    pub panel: u8,
    /// 1 to 32, the zone's bit in a mask being one less.
    pub number: u8,
    pub rule: Rule,
    /// The place of the partner zone, for types B and C.
    pub partner: Option<u16>,
}
