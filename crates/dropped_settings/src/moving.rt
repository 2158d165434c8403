//! The whole text of a move.

ghost use Rattle.std.specs.Prelude.{◌≡◌, ◌≤◌, ◌+◌, ◌++◌, IfOk, decimal, length};
ghost use Rattle.dropped_settings.specs.Moved.{moved_line as line_of, moved_text as text_of};
ghost use Rattle.site_types.specs.Carry.{carried as carried_to};
ghost use Rattle.site_types.specs.Valid.{IsValid};

use crate::counting::{outputs_off, points_off, zones_in_test, zones_off};
use crate::dropping::{
    push_counters, push_delays_off, push_outputs, push_points, push_tests, push_zones,
};
use arrayvec::ArrayString;
use itoa::Buffer;
use site_types::{Retained, Site};
use std::alloc::Global;
use tick_units::{Items, NoMemory};

/// The text of a move: what was dropped of what was kept of the old site, and the numbers that are set in the new one,
/// by what was carried over.
pub fn moved_text(
    alloc: Global,
    old: &Site,
    new: &Site,
    kept: &Retained,
    carried: &Retained,
) -> Result<Items<u8>, NoMemory>
    requires old_valid { IsValid old.now }
    requires new_valid { IsValid new.now }
    requires carried { carried.now ≡ carried_to old.now new.now kept.now }
    ensures { IfOk result (λ text. text ≡ text_of old.now new.now kept.now) }
{
    let mut text = Vec::new(alloc);
    push_points(&mut text, old, new, kept)?;
    push_zones(&mut text, old, new, kept)?;
    push_outputs(&mut text, old, new, kept)?;
    push_tests(&mut text, old, new, kept)?;
    push_delays_off(&mut text, old, new, kept)?;
    push_counters(&mut text, old, new, kept)?;
    text.extend_from_slice(moved_line(new, carried).as_str().as_bytes())?;
    Ok(Items::from_vec(text))
}

fn moved_line(site: &Site, kept: &Retained) -> ArrayString<128>
    requires { IsValid site.now }
    ensures { result.bytes ≡ line_of site.now kept.now }
{
    let mut line = ArrayString::new();
    push_count(&mut line, "moved points ", points_off(site, kept));
    push_count(&mut line, " zones ", zones_off(site, kept));
    push_count(&mut line, " outputs ", outputs_off(site, kept));
    push_count(&mut line, " tests ", zones_in_test(site, kept));
    line.push_str("\n");
    line
}

// A word and a number behind it.
fn push_count(line: &mut ArrayString<128>, word: &str, count: usize)
    requires { length line.old.bytes + length word.now + 20 ≤ 128 }
    ensures text { line.new.bytes ≡ line.old.bytes ++ word.now ++ decimal count }
    ensures room { length line.new.bytes ≤ length line.old.bytes + length word.now + 20 }
{
    let mut number = Buffer::new();
    line.push_str(word);
    line.push_str(number.format(count));
}
