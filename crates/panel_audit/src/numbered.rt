ghost use Rattle.std.specs.Prelude.{◌≡◌, ◌≤◌};

use site_types::has_bit_32;

/// A zone or an output by its panel and its number there, by which breaches of a rule are put in order.
#[derive(Clone, Copy)]
pub(crate) struct Numbered {
    pub(crate) panel: u8,
    pub(crate) number: u8,
    ghost panels: { (1 ≤ panel) × (panel ≤ 8) },
    ghost numbers: { (1 ≤ number) × (number ≤ 32) },
}

impl Numbered {
    ghost use Rattle.audit_rules.specs.Breaches.{is_lower};
    ghost use Rattle.panel_audit.specs.Lowest.{is_in_masks, standing_of};

    /// Whether it comes before another one.
    pub(crate) fn is_below(self, other: Numbered) -> bool
        ensures { result ≡ is_lower (standing_of self) (standing_of other) }
    {
        self.panel < other.panel || self.panel == other.panel && self.number < other.number
    }

    /// Whether it is in masks by panel.
    pub(crate) fn is_in(self, masks: &[u32; 8]) -> bool
        ensures { result ≡ is_in_masks masks.now self }
    {
        has_bit_32(masks[self.panel as usize - 1], self.number - 1)
    }
}
