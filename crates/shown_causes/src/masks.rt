//! Masks of zones by panel.

ghost use Rattle.std.specs.Prelude.{◌≡◌, ◌≤◌, ℕ, Some, slice_get};
ghost use Rattle.site_types.specs.declared.site.Site.{Site as SiteOf};
ghost use Rattle.site_types.specs.Valid.{IsValid};
ghost use Rattle.asked_markers.specs.Marks.{SetsZone};

use site_types::{Zone, with_bit_32};

/// Puts a zone of the site into masks or takes it out.
pub fn set_zone(masks: &mut [u32; 8], zone: &Zone, on: bool)
    requires panel { (1 ≤ zone.now.panel) × (zone.now.panel ≤ 8) }
    requires number { (1 ≤ zone.now.number) × (zone.now.number ≤ 32) }
    ensures { (site : SiteOf) (place : ℕ) → IsValid site
        → slice_get site.zones place ≡ Some zone.now → SetsZone site place on masks.old masks.new }
{
    let panel = zone.panel as usize - 1;
    masks[panel] = with_bit_32(masks[panel], zone.number - 1, on);
}
