//! The words with every bit that those of a frame may have.

ghost use Rattle.std.specs.Prelude.{◌≡◌, ◌≤◌, ◌<◌, ℕ, false, length, slice_index_or};
ghost use Rattle.std.specs.List.{list_any};
ghost use Rattle.panel_frames.specs.Grammar.{fullest_word as fullest_of, fullest_words as fullest_words_of};
ghost use Rattle.panel_frames.specs.Grammar.{is_panel_zone, zones_of};

use panel_links::Frame;
use site_types::{Site, Word, Zone, mask_from_32};
use tick_units::Tick;

// The words with every bit that those of a frame may have.
pub(crate) fn fullest_words(site: &Site, frame: &Frame) -> [Word; 4]
    requires { frame.now.group ≤ 1 }
    ensures { result ≡ fullest_words_of site.now frame.now }
{
    let first = 4 * frame.group + 1;
    [
        fullest_word(site, first, &frame.words[0]),
        fullest_word(site, first + 1, &frame.words[1]),
        fullest_word(site, first + 2, &frame.words[2]),
        fullest_word(site, first + 3, &frame.words[3]),
    ]
}

fn fullest_word(site: &Site, panel: u8, word: &Word) -> Word
    ensures { result ≡ fullest_of site.now panel word.now }
{
    if panel > site.panels {
        return Word::default();
    }
    if word.stamp.0 == 0 {
        return Word {
            stamp: Tick(u64::MAX),
            ..Word::default()
        };
    }
    let zones = zone_mask(site.zones.as_slice(), panel);
    Word {
        stamp: Tick(u64::MAX),
        alarm: zones,
        manual: zones,
        released: zones,
        first: zones,
        fault: true,
    }
}

// A bit for each zone of the panel.
fn zone_mask(zones: &[Zone], panel: u8) -> u32
    ensures { result ≡ zones_of panel zones.now }
{
    let numbers = zone_numbers(zones, panel);
    mask_from_32(&numbers[1..33])
}

// Which numbers have a zone of the panel.
fn zone_numbers(zones: &[Zone], panel: u8) -> [bool; 256]
    ensures size { length result ≡ 256 }
    ensures known { (number : ℕ) → number < 256
        → slice_index_or result number false ≡ list_any (is_panel_zone panel number) zones.now }
{
    let mut numbers = [false; 256];
    for zone in zones {
        if zone.panel == panel {
            numbers[zone.number as usize] = true;
        }
    }
    numbers
}
