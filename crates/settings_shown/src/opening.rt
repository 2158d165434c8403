ghost use Rattle.std.specs.Prelude.{◌≡◌, []};
ghost use Rattle.operation_desk.specs.Replies.{AreInForce};
ghost use Rattle.settings_shown.specs.Shown.{HasNoStrangeBits};
ghost use Rattle.site_types.specs.Changes.{IsSized};
ghost use Rattle.site_types.specs.Valid.{IsValid};

use site_types::{Retained, Site, carry};

/// The settings with which a site is opened: what was kept, but for bits of points, zones and outputs that the site
/// hasn't.
pub fn settings_at_opening(site: &Site, kept: &Retained) -> Retained
    requires { IsValid site.now }
    ensures no_strange_bits { HasNoStrangeBits site.now result }
    ensures in_force { AreInForce site.now kept.now 0 [] result }
    ensures sized { IsSized result }
    ensures delays { result.delays_off ≡ kept.now.delays_off }
    ensures counters { result.counters ≡ kept.now.counters }
{
    let mut settings = carry(site, site, kept);
    settings.delays_off = kept.delays_off;
    let counters = kept.counters;
    settings.counters = counters;
    settings
}
