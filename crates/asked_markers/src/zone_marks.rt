//! Zones put into masks by panel, and taken out.

ghost use Rattle.std.specs.Prelude.{◌≡◌, ◌≤◌, ℕ, Some, slice_get};
ghost use Rattle.site_types.specs.declared.site.Site.{Site as SiteOf};
ghost use Rattle.site_types.specs.Valid.{IsValid};
ghost use Rattle.asked_markers.specs.Marks.{SetsZone};

use site_types::{Zone, with_bit_32};

/// The masks with a zone of the site in them or not, and with the other zones that they had.
pub fn with_zone(masks: [u32; 8], zone: &Zone, on: bool) -> [u32; 8]
    requires panel { (1 ≤ zone.now.panel) × (zone.now.panel ≤ 8) }
    requires number { (1 ≤ zone.now.number) × (zone.now.number ≤ 32) }
    ensures { (site : SiteOf) (place : ℕ) → IsValid site
        → slice_get site.zones place ≡ Some zone.now → SetsZone site place on masks result }
{
    let mut marked = masks;
    let panel = zone.panel as usize - 1;
    marked[panel] = with_bit_32(masks[panel], zone.number - 1, on);
    marked
}
