use crate::label::Label;
use crate::output_kind::OutputKind;

/// An output of a panel.
#[derive(Clone, Copy)]
pub struct Output {
    pub name: Label,
    pub panel: u8,
    /// 1 to 32, the output's bit in a mask being one less.
    pub number: u8,
    pub kind: OutputKind,
    /// The place of the marker that asks for it.
    pub marker: u16,
    /// Ticks from the first request until it is on.
    pub delay: u16,
}
