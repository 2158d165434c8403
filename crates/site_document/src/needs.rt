ghost use Rattle.std.specs.Prelude.{◌≡◌};
ghost use Rattle.toml.specs.View.{table_view};
ghost use Rattle.site_document.specs.Needs.{
  is_a as is_type_a,
  is_a_or_b as is_type_a_or_b,
  is_allowed as is_allowed_in,
  is_at_least as is_kind_at_least,
  is_b_or_c as is_type_b_or_c,
  is_needed as is_needed_in,
};

use crate::key::Key;
use crate::tables::{marker_kind_at, type_at};
use crate::words::{MarkerKind, ZoneType};
use toml::Table;

/// Whether a table needs a key.
#[tactic(auto, unfolding(crate::specs::Needs::is_needed))]
pub fn is_needed(key: Key, table: &Table) -> bool
    ensures { result ≡ is_needed_in key (table_view table.now) }
{
    match key {
        Key::Address => true,
        Key::ChargerWait => false,
        Key::Count => is_at_least(marker_kind_at(table)),
        Key::Delay => false,
        Key::Format => true,
        Key::Isolators => false,
        Key::Last => true,
        Key::Level2 => false,
        Key::Level3 => false,
        Key::Level4 => false,
        Key::Loop => true,
        Key::Loops => false,
        Key::MainsWait => false,
        Key::MarkerKind => true,
        Key::Markers => false,
        Key::Name => true,
        Key::Number => true,
        Key::OutputKind => true,
        Key::Outputs => false,
        Key::Panel => true,
        Key::Panels => true,
        Key::Partner => false,
        Key::PointKind => false,
        Key::Points => false,
        Key::Site => true,
        Key::StandbyWait => false,
        Key::Terms => true,
        Key::Type => false,
        Key::Verify => is_a(type_at(table)),
        Key::VoltageWait => false,
        Key::When => true,
        Key::Within => is_a_or_b(type_at(table)),
        Key::Zone => true,
        Key::Zones => false,
    }
}

/// Whether a table may have a key of its kind.
#[tactic(auto, unfolding(crate::specs::Needs::is_allowed))]
pub fn is_allowed(key: Key, table: &Table) -> bool
    ensures { result ≡ is_allowed_in key (table_view table.now) }
{
    match key {
        Key::Address => true,
        Key::ChargerWait => true,
        Key::Count => is_at_least(marker_kind_at(table)),
        Key::Delay => true,
        Key::Format => true,
        Key::Isolators => true,
        Key::Last => true,
        Key::Level2 => true,
        Key::Level3 => true,
        Key::Level4 => true,
        Key::Loop => true,
        Key::Loops => true,
        Key::MainsWait => true,
        Key::MarkerKind => true,
        Key::Markers => true,
        Key::Name => true,
        Key::Number => true,
        Key::OutputKind => true,
        Key::Outputs => true,
        Key::Panel => true,
        Key::Panels => true,
        Key::Partner => is_b_or_c(type_at(table)),
        Key::PointKind => true,
        Key::Points => true,
        Key::Site => true,
        Key::StandbyWait => true,
        Key::Terms => true,
        Key::Type => true,
        Key::Verify => is_a(type_at(table)),
        Key::VoltageWait => true,
        Key::When => true,
        Key::Within => is_a_or_b(type_at(table)),
        Key::Zone => true,
        Key::Zones => true,
    }
}

fn is_a(zone_type: ZoneType) -> bool
    ensures { result ≡ is_type_a zone_type }
{
    match zone_type {
        ZoneType::A => true,
        ZoneType::Plain | ZoneType::B | ZoneType::C => false,
    }
}

fn is_a_or_b(zone_type: ZoneType) -> bool
    ensures { result ≡ is_type_a_or_b zone_type }
{
    match zone_type {
        ZoneType::A | ZoneType::B => true,
        ZoneType::Plain | ZoneType::C => false,
    }
}

fn is_b_or_c(zone_type: ZoneType) -> bool
    ensures { result ≡ is_type_b_or_c zone_type }
{
    match zone_type {
        ZoneType::B | ZoneType::C => true,
        ZoneType::Plain | ZoneType::A => false,
    }
}

fn is_at_least(kind: MarkerKind) -> bool
    ensures { result ≡ is_kind_at_least kind }
{
    match kind {
        MarkerKind::AtLeast => true,
        MarkerKind::All | MarkerKind::Any => false,
    }
}
