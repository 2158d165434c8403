//! Whether a setting that was kept of the old site is dropped.

ghost use Rattle.std.specs.Prelude.{◌≡◌};
ghost use Rattle.dropped_settings.specs.Dropped.{are_dropped_delays as lose_delays};
ghost use Rattle.dropped_settings.specs.Dropped.{is_dropped_counter as loses_counter};
ghost use Rattle.dropped_settings.specs.Dropped.{is_dropped_output as loses_output, is_dropped_point as loses_point};
ghost use Rattle.dropped_settings.specs.Dropped.{is_dropped_test as loses_test, is_dropped_zone as loses_zone};
ghost use Rattle.site_types.specs.Bits.{IsPlace};
ghost use Rattle.site_types.specs.Changes.{IsNumber, IsPanelNumber};
ghost use Rattle.site_types.specs.Valid.{IsValid};

use crate::kind::Kind;
use crate::settings::{has_name, is_in_test, is_output_off, is_point_off, is_zone_off};
use site_types::{Output, Point, Retained, Site, Zone, has_bit_8};

/// Whether a point is disabled and the new site has none of its name.
pub fn is_dropped_point(new: &Site, kept: &Retained, point: &Point) -> bool
    requires new_valid { IsValid new.now }
    requires panel { IsPanelNumber point.now.panel }
    requires place { IsPlace point.now.line point.now.address }
    ensures { result ≡ loses_point new.now kept.now point.now }
{
    is_point_off(kept, point) && !has_name(new, Kind::Point, &point.name)
}

/// Whether a zone is disabled and the new site has none of its name.
pub fn is_dropped_zone(new: &Site, kept: &Retained, zone: &Zone) -> bool
    requires new_valid { IsValid new.now }
    requires panel { IsPanelNumber zone.now.panel }
    requires number { IsNumber zone.now.number }
    ensures { result ≡ loses_zone new.now kept.now zone.now }
{
    is_zone_off(kept, zone) && !has_name(new, Kind::Zone, &zone.name)
}

/// Whether an output is disabled and the new site has none of its name.
pub fn is_dropped_output(new: &Site, kept: &Retained, output: &Output) -> bool
    requires new_valid { IsValid new.now }
    requires panel { IsPanelNumber output.now.panel }
    requires number { IsNumber output.now.number }
    ensures { result ≡ loses_output new.now kept.now output.now }
{
    is_output_off(kept, output) && !has_name(new, Kind::Output, &output.name)
}

/// Whether a zone is in test and the new site has none of its name.
pub fn is_dropped_test(new: &Site, kept: &Retained, zone: &Zone) -> bool
    requires new_valid { IsValid new.now }
    requires panel { IsPanelNumber zone.now.panel }
    requires number { IsNumber zone.now.number }
    ensures { result ≡ loses_test new.now kept.now zone.now }
{
    is_in_test(kept, zone) && !has_name(new, Kind::Zone, &zone.name)
}

/// Whether a panel's delays are off and the new site hasn't the panel.
pub fn are_dropped_delays(new: &Site, kept: &Retained, panel: u8) -> bool
    requires { IsPanelNumber panel }
    ensures { result ≡ lose_delays new.now kept.now panel }
{
    panel > new.panels && has_bit_8(kept.delays_off, panel - 1)
}

/// Whether a panel's counter is above 0 and the new site hasn't the panel.
pub fn is_dropped_counter(new: &Site, kept: &Retained, panel: u8) -> bool
    requires { IsPanelNumber panel }
    ensures { result ≡ loses_counter new.now kept.now panel }
{
    panel > new.panels && kept.counters[panel as usize - 1] > 0
}
