//! The first 2,048 bytes of a journal file, and why a file is refused by them.

ghost use Rattle.std.specs.Prelude.{◌≡◌, ◌+◌, ◌≤◌, length, IfOk, IfSome, OnOk, ◌↔◌, ◌++◌, take, drop};
ghost use Rattle.panel_edges.specs.Crashes.{Stays};
ghost use Rattle.panel_edges.specs.Faults.{HasCause};
ghost use Rattle.retained_journal.specs.Fields.{Agrees, first_in};
ghost use Rattle.retained_journal.specs.Opening.{counter_too_great, cut_short, front_refusal, great_counter as great};
ghost use Rattle.retained_journal.specs.Opening.{is_second as second_counts, no_open_slot, not_a_journal};
ghost use Rattle.retained_journal.specs.Opening.{number_too_great, other_site, passes};
ghost use Rattle.retained_journal.specs.Places.{bytes_of_slot, front_bytes, wide_points_place};
ghost use Rattle.retained_journal.specs.Outcomes.{LeavesAsItWas};

use crate::fields::{digest_at, mark_of, number_at, short_number_at};
use crate::layout::{
    COUNTERS_PLACE, DIGEST_PLACE, FILE_MARK, FIRST_SLOT, FRONT_BYTES, LOG_GATE, MOST_NUMBER,
    SECOND_SLOT, WHOLE_BYTES, slot_place,
};
use crate::open_refusal::OpenRefusal;
use panel_edges::{Disk, Failed};
use site_types::GREATEST_COUNT;

/// The first bytes of a file, with zeros for absent ones.
pub(crate) type Front = [u8; FRONT_BYTES];

// Reads the front of a file of so many bytes.
pub(crate) fn read_front<D: Disk>(disk: &mut D, len: u64) -> Result<Front, Failed>
    requires { IfSome (D.seen disk.old) (λ file. len ≡ length file) }
    ensures ok { IfOk result (λ front.
        IfSome (D.seen disk.old) (λ file. Agrees front_bytes front 0 file 0)) }
    ensures seen { D.seen disk.new ≡ D.seen disk.old }
    ensures honest { D.honest disk.new ↔ D.honest disk.old }
    ensures crash { D.honest disk.old → Stays (D.images disk.old) (D.images disk.new) }
    ensures moments { LeavesAsItWas D.honest D.moment D.left_since D.images disk.old disk.new }
    ensures cause { HasCause (D.faults disk.old) (D.faults disk.new) result }
{
    let mut front = [0; FRONT_BYTES];
    read_beginning(disk, &mut front, len.min(FRONT_BYTES as u64) as usize)?;
    Ok(front)
}

// Reads the first so many bytes of a file, and leaves what lies behind them.
fn read_beginning<D: Disk>(disk: &mut D, into: &mut [u8], count: usize) -> Result<(), Failed>
    requires room { count ≤ length into.old }
    requires told { IfSome (D.seen disk.old) (λ file. count ≤ length file) }
    ensures ok { OnOk result (IfSome (D.seen disk.old) (λ file.
        into.new ≡ take count file ++ drop count into.old)) }
    ensures seen { D.seen disk.new ≡ D.seen disk.old }
    ensures honest { D.honest disk.new ↔ D.honest disk.old }
    ensures crash { D.honest disk.old → Stays (D.images disk.old) (D.images disk.new) }
    ensures moments { LeavesAsItWas D.honest D.moment D.left_since D.images disk.old disk.new }
    ensures cause { HasCause (D.faults disk.old) (D.faults disk.new) result }
{
    disk.read_at(0, &mut into[..count])
}

// Tests the front of a file of so many bytes, in the order of the causes.
pub(crate) fn check_front(front: &Front, len: u64, digest: &[u8; 32]) -> Result<(), OpenRefusal>
    ensures { result ≡ passes (front_refusal digest.now len front.now) }
{
    check_mark(front)?;
    check_len(front, len)?;
    check_digest(front, digest)?;
    check_gates(front)?;
    let at = slot_place(is_second(front));
    check_number(front, at)?;
    check_counters(front, at)
}

fn check_mark(front: &Front) -> Result<(), OpenRefusal>
    ensures { result ≡ passes (not_a_journal front.now) }
{
    let mark = mark_of(front);
    if mark == FILE_MARK {
        Ok(())
    } else {
        Err(OpenRefusal::NotAJournal(mark))
    }
}

fn check_len(front: &Front, len: u64) -> Result<(), OpenRefusal>
    ensures { result ≡ passes (cut_short len front.now) }
{
    if len < FRONT_BYTES as u64 || (front[LOG_GATE] == 1 && len < WHOLE_BYTES) {
        Err(OpenRefusal::Damaged {
            offset: len,
            byte: 0,
        })
    } else {
        Ok(())
    }
}

fn check_digest(front: &Front, digest: &[u8; 32]) -> Result<(), OpenRefusal>
    ensures { result ≡ passes (other_site digest.now front.now) }
{
    let kept = digest_at(front, DIGEST_PLACE);
    if kept == *digest {
        Ok(())
    } else {
        Err(OpenRefusal::OtherSite {
            kept,
            given: *digest,
        })
    }
}

fn check_gates(front: &Front) -> Result<(), OpenRefusal>
    ensures { result ≡ passes (no_open_slot front.now) }
{
    if front[FIRST_SLOT] == 1 || front[SECOND_SLOT] == 1 {
        Ok(())
    } else {
        Err(OpenRefusal::Damaged {
            offset: FIRST_SLOT as u64,
            byte: front[FIRST_SLOT],
        })
    }
}

// Whether slot B is the chosen slot.
pub(crate) fn is_second(front: &Front) -> bool
    ensures { result ≡ second_counts front.now }
{
    front[SECOND_SLOT] == 1
        && (front[FIRST_SLOT] != 1
            || number_at(front, FIRST_SLOT + 1) < number_at(front, SECOND_SLOT + 1))
}

fn check_number(front: &Front, at: usize) -> Result<(), OpenRefusal>
    requires { at + bytes_of_slot ≤ front_bytes }
    ensures { result ≡ passes (number_too_great at front.now) }
{
    if number_at(front, at + 1) > MOST_NUMBER {
        Err(OpenRefusal::Damaged {
            offset: at as u64 + 1,
            byte: front[at + 1],
        })
    } else {
        Ok(())
    }
}

fn check_counters(front: &Front, at: usize) -> Result<(), OpenRefusal>
    requires { at + bytes_of_slot ≤ front_bytes }
    ensures { result ≡ passes (counter_too_great at front.now) }
{
    match great_counter(front, at) {
        None => Ok(()),
        Some(place) => Err(OpenRefusal::Damaged {
            offset: place as u64,
            byte: front[place],
        }),
    }
}

// The place of the first counter that is too great.
fn great_counter(front: &Front, at: usize) -> Option<usize>
    requires { at + bytes_of_slot ≤ front_bytes }
    ensures value { result ≡ first_in (great at front.now) 8 }
    ensures bound { IfSome result (λ place. place + 4 ≤ at + wide_points_place) }
{
    for panel in 0..8 {
        let place = at + COUNTERS_PLACE + 4 * panel;
        if short_number_at(front, place) > GREATEST_COUNT {
            return Some(place);
        }
    }
    None
}
