ghost use Rattle.std.specs.Prelude.{◌≡◌};
ghost use Rattle.site_document.specs.Words.{
  is_manual_of,
  marker_kind_of as marker_kind_in,
  output_kind_of as output_kind_in,
  zone_type_of as zone_type_in,
};

use site_types::OutputKind;

/// The type of a zone, its numbers apart.
#[derive(Clone, Copy, Debug, PartialEq, Eq)]
pub enum ZoneType {
    Plain,
    A,
    B,
    C,
}

/// How a marker combines its terms, its count apart.
#[derive(Clone, Copy, Debug, PartialEq, Eq)]
pub enum MarkerKind {
    All,
    Any,
    AtLeast,
}

/// The type that a word names.
#[tactic(auto, unfolding(crate::specs::Words::zone_type_of))]
pub fn zone_type_of(text: &str) -> Option<ZoneType>
    ensures { result ≡ zone_type_in text.now }
{
    if text == "none" {
        Some(ZoneType::Plain)
    } else if text == "a" {
        Some(ZoneType::A)
    } else if text == "b" {
        Some(ZoneType::B)
    } else if text == "c" {
        Some(ZoneType::C)
    } else {
        None
    }
}

/// Whether a word names a manual call point, or else a detector.
#[tactic(auto, unfolding(crate::specs::Words::is_manual_of))]
pub fn manual_of(text: &str) -> Option<bool>
    ensures { result ≡ is_manual_of text.now }
{
    if text == "detector" {
        Some(false)
    } else if text == "manual" {
        Some(true)
    } else {
        None
    }
}

/// The kind of output that a word names.
#[tactic(auto, unfolding(crate::specs::Words::output_kind_of))]
pub fn output_kind_of(text: &str) -> Option<OutputKind>
    ensures { result ≡ output_kind_in text.now }
{
    if text == "sounder" {
        Some(OutputKind::Sounder)
    } else if text == "routing" {
        Some(OutputKind::Routing)
    } else if text == "protection" {
        Some(OutputKind::Protection)
    } else if text == "relay" {
        Some(OutputKind::Relay)
    } else {
        None
    }
}

/// The kind of marker that a word names.
#[tactic(auto, unfolding(crate::specs::Words::marker_kind_of))]
pub fn marker_kind_of(text: &str) -> Option<MarkerKind>
    ensures { result ≡ marker_kind_in text.now }
{
    if text == "all" {
        Some(MarkerKind::All)
    } else if text == "any" {
        Some(MarkerKind::Any)
    } else if text == "atleast" {
        Some(MarkerKind::AtLeast)
    } else {
        None
    }
}
