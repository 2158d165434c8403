//! What faces show, counted.

use crate::telling::Length;
use anyhow::Result;
use face_text::Face;
use site_types::{Site, Zone, has_bit_32};
use std::alloc::Global;
use trial_cases::Lines;

/// The line that these faces make, one of each panel.
pub(crate) fn count(alloc: Global, site: &Site, faces: &[Face], length: Length) -> Result<String> {
    let mut lines = Lines::new(alloc);
    lines.count("drill seed ", length.seed);
    lines.count(" ticks ", length.ticks);
    lines.count(" zones ", zones_of(site, faces));
    lines.count(" outputs ", outputs_of(faces));
    lines.count(" counter ", counters_of(faces));
    lines.say("\n");
    lines.done()
}

// The zones in alarm at their own panels.
fn zones_of(site: &Site, faces: &[Face]) -> u64 {
    let mut zones: u64 = 0;
    for zone in site.zones.as_slice() {
        if is_in_alarm(faces, zone) {
            zones = zones.saturating_add(1);
        }
    }
    zones
}

fn is_in_alarm(faces: &[Face], zone: &Zone) -> bool {
    let place = zone.panel.saturating_sub(1) as usize;
    let Some(face) = faces.get(place) else {
        return false;
    };
    match face.zones.get(place) {
        Some(mask) => has_number(*mask, zone.number),
        None => false,
    }
}

fn has_number(mask: u32, number: u8) -> bool {
    number >= 1 && number <= 32 && has_bit_32(mask, number - 1)
}

// The outputs that are on.
fn outputs_of(faces: &[Face]) -> u64 {
    let mut outputs: u64 = 0;
    for face in faces {
        outputs = outputs.saturating_add(face.outputs.count_ones() as u64);
    }
    outputs
}

fn counters_of(faces: &[Face]) -> u64 {
    let mut sum: u64 = 0;
    for face in faces {
        sum = sum.saturating_add(face.counter as u64);
    }
    sum
}
