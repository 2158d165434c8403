ghost use Rattle.std.specs.Prelude.{◌≡◌};
ghost use Rattle.face_text.specs.Slots.{page as page_of_panel};

use crate::group::Group;

/// The groups in the order of the page.
pub fn page() -> &'static [Group; 35]
    ensures { result.now ≡ page_of_panel }
{
    &PAGE
}

// They stand in the program's own data, so that none is copied.
static PAGE: [Group; 35] = [
    Group::Zones(1),
    Group::Zones(2),
    Group::Zones(3),
    Group::Zones(4),
    Group::Zones(5),
    Group::Zones(6),
    Group::Zones(7),
    Group::Zones(8),
    Group::Firsts(1),
    Group::Firsts(2),
    Group::Firsts(3),
    Group::Firsts(4),
    Group::Firsts(5),
    Group::Firsts(6),
    Group::Firsts(7),
    Group::Firsts(8),
    Group::Missing(1),
    Group::Missing(2),
    Group::Missing(3),
    Group::Missing(4),
    Group::Broken,
    Group::Shorted,
    Group::Supplies,
    Group::Silent,
    Group::Links,
    Group::Unconfirmed,
    Group::Outputs,
    Group::Confirmed,
    Group::PointsOff(1),
    Group::PointsOff(2),
    Group::PointsOff(3),
    Group::PointsOff(4),
    Group::ZonesOff,
    Group::OutputsOff,
    Group::Tests,
];
