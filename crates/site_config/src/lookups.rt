ghost use Rattle.std.specs.Prelude.{◌≡◌};
ghost use Rattle.site_config.specs.NoSuch.{marker_place as marker_place_of, zone_place as zone_place_of};

use site_types::Thing;

/// The place of the zone that a name stands for.
pub fn zone_place(thing: Option<Thing>) -> Option<u16>
    ensures { result ≡ zone_place_of thing }
{
    match thing {
        Some(Thing::Zone(place)) => Some(place),
        Some(Thing::Point(_)) => None,
        Some(Thing::Output(_)) => None,
        Some(Thing::Marker(_)) => None,
        None => None,
    }
}

/// The place of the marker that a name stands for.
pub fn marker_place(thing: Option<Thing>) -> Option<u16>
    ensures { result ≡ marker_place_of thing }
{
    match thing {
        Some(Thing::Marker(place)) => Some(place),
        Some(Thing::Point(_)) => None,
        Some(Thing::Zone(_)) => None,
        Some(Thing::Output(_)) => None,
        None => None,
    }
}
