ghost use Rattle.std.specs.Prelude.{◌≡◌};
ghost use Rattle.std.specs.List.{list_any};
ghost use Rattle.face_text.specs.Faces.{conditions_of, empty_face, has_points, has_some, is_in_disablement};
ghost use Rattle.face_text.specs.Faces.{is_in_fault, is_in_fire};

use crate::conditions::Conditions;
use site_types::{Buzzer, FaultSet, PointSet};

/// All that a panel shows.
#[derive(Clone, Copy, PartialEq, Eq)]
pub struct Face {
    pub panel: u8,
    /// Zones in alarm by panel, bit `number - 1`; of other panels those of the words that are kept.
    pub zones: [u32; 8],
    /// First states, as the zones.
    pub firsts: [u32; 8],
    pub faults: FaultSet,
    /// Outputs that are on, bit `number - 1`.
    pub outputs: u32,
    /// Outputs that are confirmed.
    pub confirmed: u32,
    /// Disabled points, zones and outputs.
    pub points_off: PointSet,
    pub zones_off: u32,
    pub outputs_off: u32,
    /// Zones in test.
    pub test: u32,
    pub delays_off: bool,
    pub buzzer: Buzzer,
    /// At most 999,999.
    pub counter: u32,
}

impl Face {
    /// The face of a panel that shows nothing.
    pub fn empty(panel: u8) -> Face
        ensures { result ≡ empty_face panel }
    {
        let no_points = PointSet { loops: [[0; 2]; 4] };
        Face {
            panel,
            zones: [0; 8],
            firsts: [0; 8],
            faults: FaultSet {
                missing: no_points,
                broken: 0,
                shorted: 0,
                supply: 0,
                silent: 0,
                links: 0,
                unconfirmed: 0,
            },
            outputs: 0,
            confirmed: 0,
            points_off: no_points,
            zones_off: 0,
            outputs_off: 0,
            test: 0,
            delays_off: false,
            buzzer: Buzzer::Off,
            counter: 0,
        }
    }

    /// The conditions that the panel is in.
    pub fn conditions(&self) -> Conditions
        ensures { result ≡ conditions_of self.now }
    {
        Conditions {
            fire: has_own_alarm(self),
            fault: has_fault(&self.faults),
            disabled: has_disablement(self),
            test: self.test != 0,
        }
    }
}

fn has_own_alarm(face: &Face) -> bool
    ensures { result ≡ is_in_fire face.now }
{
    match face.zones.get(face.panel.saturating_sub(1) as usize) {
        Some(own) => *own != 0,
        None => false,
    }
}

fn has_fault(faults: &FaultSet) -> bool
    ensures { result ≡ is_in_fault faults.now }
{
    has_point(&faults.missing)
        || faults.broken != 0
        || faults.shorted != 0
        || faults.supply != 0
        || faults.silent != 0
        || faults.links != 0
        || faults.unconfirmed != 0
}

fn has_disablement(face: &Face) -> bool
    ensures { result ≡ is_in_disablement face.now }
{
    has_point(&face.points_off) || face.zones_off != 0 || face.outputs_off != 0 || face.delays_off
}

// Whether there is a point in a set.
fn has_point(set: &PointSet) -> bool
    ensures { result ≡ has_points set.now }
{
    set.loops.iter().any(|halves| has_bit(halves))
}

fn has_bit(halves: &[u128; 2]) -> bool
    ensures { result ≡ list_any has_some halves.now }
{
    halves.iter().any(|half| *half != 0)
}
