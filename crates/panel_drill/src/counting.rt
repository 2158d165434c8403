//! What stands after the last tick, counted.

ghost use Rattle.std.specs.Prelude.{◌≡◌};
ghost use Rattle.panel_drill.specs.Counting.{MayBeCounted, TellsCounters, TellsOutputs, TellsSummary, TellsZones};

use crate::summary::Summary;
use panel_core::System;
use site_types::has_bit_32;

pub(crate) fn summary_of(system: &System) -> Summary
    requires { MayBeCounted system.now }
    ensures { TellsSummary system.now result }
{
    Summary {
        zones: zones_on(system),
        outputs: outputs_on(system),
        counter: counters(system),
    }
}

// How many zones their own panels show in alarm.
fn zones_on(system: &System) -> usize
    requires { MayBeCounted system.now }
    ensures { TellsZones system.now result }
{
    let mut count = 0;
    for zone in system.site().zones.as_slice() {
        let face = system.face(zone.panel);
        if has_bit_32(face.zones[zone.panel as usize - 1], zone.number - 1) {
            count += 1;
        }
    }
    count
}

// How many outputs are on.
fn outputs_on(system: &System) -> usize
    requires { MayBeCounted system.now }
    ensures { TellsOutputs system.now result }
{
    let mut count = 0;
    for output in system.site().outputs.as_slice() {
        let face = system.face(output.panel);
        if has_bit_32(face.outputs, output.number - 1) {
            count += 1;
        }
    }
    count
}

// The sum of the panels' counters.
fn counters(system: &System) -> u64
    requires { MayBeCounted system.now }
    ensures { TellsCounters system.now result }
{
    let mut sum = 0;
    for before in 0..system.site().panels {
        sum += system.face(before + 1).counter as u64;
    }
    sum
}
