ghost use Rattle.std.specs.Prelude.{◌≡◌};
ghost use Rattle.site_document.specs.Rules.{form_of as form_at, keys_of as keys_in};

use crate::form::Form;
use crate::key::Key;
use crate::row_kind::RowKind;

const TOP_KEYS: [Key; 15] = [
    Key::ChargerWait,
    Key::Format,
    Key::Level2,
    Key::Level3,
    Key::Level4,
    Key::Loops,
    Key::MainsWait,
    Key::Markers,
    Key::Outputs,
    Key::Panels,
    Key::Points,
    Key::Site,
    Key::StandbyWait,
    Key::VoltageWait,
    Key::Zones,
];

const LOOP_KEYS: [Key; 4] = [Key::Isolators, Key::Last, Key::Loop, Key::Panel];

const ZONE_KEYS: [Key; 7] = [
    Key::Name,
    Key::Number,
    Key::Panel,
    Key::Partner,
    Key::Type,
    Key::Verify,
    Key::Within,
];

const POINT_KEYS: [Key; 6] = [
    Key::Address,
    Key::PointKind,
    Key::Loop,
    Key::Name,
    Key::Panel,
    Key::Zone,
];

const OUTPUT_KEYS: [Key; 6] = [
    Key::Delay,
    Key::OutputKind,
    Key::Name,
    Key::Number,
    Key::Panel,
    Key::When,
];

const MARKER_KEYS: [Key; 4] = [Key::Count, Key::MarkerKind, Key::Name, Key::Terms];

/// The keys of a kind of table, in alphabetical order.
#[tactic(auto, unfolding(crate::specs::Rules::keys_of))]
pub fn keys_of(kind: RowKind) -> &'static [Key]
    ensures { result.now ≡ keys_in kind }
{
    match kind {
        RowKind::Top => &TOP_KEYS,
        RowKind::Loop => &LOOP_KEYS,
        RowKind::Zone => &ZONE_KEYS,
        RowKind::Point => &POINT_KEYS,
        RowKind::Output => &OUTPUT_KEYS,
        RowKind::Marker => &MARKER_KEYS,
    }
}

/// What the value of a key has to be.
#[tactic(auto, unfolding(crate::specs::Rules::form_of))]
pub fn form_of(key: Key) -> Form
    ensures { result ≡ form_at key }
{
    match key {
        Key::Address => Form::Number,
        Key::ChargerWait => Form::Number,
        Key::Count => Form::Number,
        Key::Delay => Form::Number,
        Key::Format => Form::Number,
        Key::Isolators => Form::Numbers,
        Key::Last => Form::Number,
        Key::Level2 => Form::Digests,
        Key::Level3 => Form::Digests,
        Key::Level4 => Form::Digests,
        Key::Loop => Form::Number,
        Key::Loops => Form::Tables,
        Key::MainsWait => Form::Number,
        Key::MarkerKind => Form::MarkerKind,
        Key::Markers => Form::Tables,
        Key::Name => Form::Name,
        Key::Number => Form::Number,
        Key::OutputKind => Form::OutputKind,
        Key::Outputs => Form::Tables,
        Key::Panel => Form::Number,
        Key::Panels => Form::Number,
        Key::Partner => Form::Name,
        Key::PointKind => Form::PointKind,
        Key::Points => Form::Tables,
        Key::Site => Form::Name,
        Key::StandbyWait => Form::Number,
        Key::Terms => Form::Terms,
        Key::Type => Form::ZoneType,
        Key::Verify => Form::Number,
        Key::VoltageWait => Form::Number,
        Key::When => Form::Name,
        Key::Within => Form::Number,
        Key::Zone => Form::Name,
        Key::Zones => Form::Tables,
    }
}
