//! Where in the lists of a site what a line names may stand.

use site_types::Site;
use std::alloc::Global;
use tick_units::NoMemory;

/// Where in its lists a site may have the thing with a number, and the entry of a name. Whoever takes a guess
/// looks at what stands there and searches the list where that is something else, so that no clause says what
/// is guessed: of a valid site the place of a number is always right, and that of most names.
#[derive(Drop)]
pub struct Guesses {
    // By the keys below.
    places: Vec<u16>,
}

impl Guesses {
    /// Looks once at each point, zone, output and name.
    pub fn of(alloc: Global, site: &Site) -> Result<Guesses, NoMemory> {
        let mut places = vec![in alloc; 0; KEYS]?;
        for (place, zone) in site.zones.as_slice().iter().enumerate() {
            note(&mut places, zone_key(zone.panel, zone.number), place);
        }
        for (place, output) in site.outputs.as_slice().iter().enumerate() {
            note(&mut places, output_key(output.panel, output.number), place);
        }
        for (place, point) in site.points.as_slice().iter().enumerate() {
            note(
                &mut places,
                point_key(point.panel, point.line, point.address),
                place,
            );
        }
        for (place, named) in site.names.as_slice().iter().enumerate() {
            note(&mut places, name_key(named.name.as_str().as_bytes()), place);
        }
        Ok(Guesses { places })
    }

    /// Of the zone of a panel with a number, among the zones.
    pub fn zone(&self, panel: u8, number: u8) -> usize {
        self.at(zone_key(panel, number))
    }

    /// Of the output of a panel with a number, among the outputs.
    pub fn output(&self, panel: u8, number: u8) -> usize {
        self.at(output_key(panel, number))
    }

    /// Of the point of a panel's loop with an address, among the points.
    pub fn point(&self, panel: u8, line: u8, address: u8) -> usize {
        self.at(point_key(panel, line, address))
    }

    /// Of the entry of a name, among the names.
    pub fn name(&self, name: &[u8]) -> usize {
        self.at(name_key(name))
    }

    fn at(&self, key: usize) -> usize {
        match self.places.get(key) {
            Some(place) => *place as usize,
            None => 0,
        }
    }
}

fn note(places: &mut [u16], key: usize, place: usize) {
    if let Some(noted) = places.get_mut(key) {
        *noted = place.min(u16::MAX as usize) as u16;
    }
}

// Zones are below outputs, outputs below points, and all below names.
fn zone_key(panel: u8, number: u8) -> usize {
    panel as usize * 32 + number as usize
}

fn output_key(panel: u8, number: u8) -> usize {
    FIRST_OUTPUT + panel as usize * 32 + number as usize
}

fn point_key(panel: u8, line: u8, address: u8) -> usize {
    panel as usize * 4 * 192 + line as usize * 192 + address as usize
}

// The names' keys are the upper bits of a sum of bytes in which each bit of each byte counts.
fn name_key(name: &[u8]) -> usize {
    let mut sum: u32 = 0;
    for byte in name {
        sum = (sum ^ *byte as u32).wrapping_mul(16_777_619);
    }
    FIRST_NAME + (sum >> 19) as usize
}

const FIRST_OUTPUT: usize = 8 * 32 + 32;

const FIRST_NAME: usize = 8 * 4 * 192 + 4 * 192 + 192 + 1;

const KEYS: usize = FIRST_NAME + (1 << 13);
