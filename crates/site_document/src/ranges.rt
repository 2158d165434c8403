ghost use Rattle.std.specs.Prelude.{◌≡◌, ◌<◌, ◌^◌};
ghost use Rattle.toml.specs.View.{table_view};
ghost use Rattle.site_document.specs.Ranges.{contains as contains_in, length_range as length_range_of};
ghost use Rattle.site_document.specs.Ranges.{range_of as range_in, within_range as within_range_of};

use crate::key::Key;
use crate::tables::{format_at, items_at, natural_at, type_at};
use crate::words::ZoneType;
use site_types::{
    MOST_CODES, MOST_LOOPS, MOST_MARKERS, MOST_PANELS, MOST_TERMS, MOST_ZONES, Profile,
};
use toml::Table;

/// The numbers from `least` to `greatest`.
#[derive(Clone, Copy, Debug, PartialEq, Eq)]
pub struct Range {
    pub least: u64,
    pub greatest: u64,
}

impl Range {
    /// Whether a number lies in the range.
    pub fn contains(&self, number: i64) -> bool
        ensures { result ≡ contains_in self.now number }
    {
        number >= 0 && self.least <= number as u64 && number as u64 <= self.greatest
    }
}

fn from_to(least: u64, greatest: u64) -> Range
    ensures { result ≡ record { least = least; greatest = greatest } }
{
    Range { least, greatest }
}

/// The numbers that a key may have in a table.
#[tactic(auto, using(crate::proofs::Counts::count_of_view), unfolding(crate::specs::Ranges::range_of))]
pub fn range_of(key: Key, top: &Table, table: &Table) -> Range
    ensures { result ≡ range_in key (table_view top.now) (table_view table.now) }
{
    let profile = Profile::of(format_at(top));
    match key {
        Key::Address => from_to(1, profile.last_address()),
        Key::ChargerWait => from_to(0, profile.greatest_charger_wait()),
        Key::Count => from_to(1, items_at(table, Key::Terms).len() as u64),
        Key::Delay => from_to(0, profile.greatest_delay()),
        Key::Format => from_to(1, 2),
        Key::Isolators => from_to(0, 0),
        Key::Last => from_to(1, profile.last_address()),
        Key::Level2 => from_to(0, 0),
        Key::Level3 => from_to(0, 0),
        Key::Level4 => from_to(0, 0),
        Key::Loop => from_to(1, MOST_LOOPS as u64),
        Key::Loops => from_to(0, 0),
        Key::MainsWait => from_to(0, profile.greatest_mains_wait()),
        Key::MarkerKind => from_to(0, 0),
        Key::Markers => from_to(0, 0),
        Key::Name => from_to(0, 0),
        Key::Number => from_to(1, MOST_ZONES as u64),
        Key::OutputKind => from_to(0, 0),
        Key::Outputs => from_to(0, 0),
        Key::Panel => from_to(1, natural_at(top, Key::Panels)),
        Key::Panels => from_to(1, MOST_PANELS as u64),
        Key::Partner => from_to(0, 0),
        Key::PointKind => from_to(0, 0),
        Key::Points => from_to(0, 0),
        Key::Site => from_to(0, 0),
        Key::StandbyWait => from_to(0, profile.greatest_standby_wait()),
        Key::Terms => from_to(0, 0),
        Key::Type => from_to(0, 0),
        Key::Verify => from_to(profile.least_verify(), profile.greatest_verify()),
        Key::VoltageWait => from_to(0, profile.greatest_voltage_wait()),
        Key::When => from_to(0, 0),
        Key::Within => within_range(type_at(table), profile, natural_at(table, Key::Verify)),
        Key::Zone => from_to(0, 0),
        Key::Zones => from_to(0, 0),
    }
}

fn within_range(zone_type: ZoneType, profile: Profile, verify: u64) -> Range
    requires { verify < 2 ^ 63 }
    ensures { result ≡ within_range_of zone_type profile.format verify }
{
    match zone_type {
        ZoneType::A => from_to(
            verify + profile.least_within_a(0),
            profile.greatest_within(),
        ),
        ZoneType::Plain => from_to(profile.least_within_b(), profile.greatest_within()),
        ZoneType::B => from_to(profile.least_within_b(), profile.greatest_within()),
        ZoneType::C => from_to(profile.least_within_b(), profile.greatest_within()),
    }
}

/// How many items the list at a key may have, where it has a limit.
#[tactic(auto, unfolding(crate::specs::Ranges::length_range))]
pub fn length_range(key: Key) -> Option<Range>
    ensures { result ≡ length_range_of key }
{
    match key {
        Key::Address => None,
        Key::ChargerWait => None,
        Key::Count => None,
        Key::Delay => None,
        Key::Format => None,
        Key::Isolators => None,
        Key::Last => None,
        Key::Level2 => Some(from_to(0, MOST_CODES as u64)),
        Key::Level3 => Some(from_to(0, MOST_CODES as u64)),
        Key::Level4 => Some(from_to(0, MOST_CODES as u64)),
        Key::Loop => None,
        Key::Loops => None,
        Key::MainsWait => None,
        Key::MarkerKind => None,
        Key::Markers => Some(from_to(0, MOST_MARKERS as u64)),
        Key::Name => None,
        Key::Number => None,
        Key::OutputKind => None,
        Key::Outputs => None,
        Key::Panel => None,
        Key::Panels => None,
        Key::Partner => None,
        Key::PointKind => None,
        Key::Points => None,
        Key::Site => None,
        Key::StandbyWait => None,
        Key::Terms => Some(from_to(1, MOST_TERMS as u64)),
        Key::Type => None,
        Key::Verify => None,
        Key::VoltageWait => None,
        Key::When => None,
        Key::Within => None,
        Key::Zone => None,
        Key::Zones => None,
    }
}
