ghost use Rattle.std.specs.Prelude.{◌≡◌, ◌≤◌, ◌<◌, IsOk, option_map};
ghost use Rattle.sha2.specs.Sha256.{sha256};
ghost use Rattle.access_levels.specs.Levels.{IsLevelOf, holds, level_in, level_of, needed_by};

use crate::denied::Denied;
use sha2::{Digest, Sha256};
use site_types::{Operation, Site};
use tick_units::Items;

/// The level of a code, 1 to 4.
pub fn level_of(code: Option<&str>, site: &Site) -> u8
    ensures value { result ≡ level_of site.now (option_map (λ text. text.now) code.entry) }
    ensures greatest { IsLevelOf site.now (option_map (λ text. text.now) code.entry) result }
{
    let Some(code) = code else {
        return 1;
    };
    let digest: [u8; 32] = Sha256::digest(code.as_bytes());
    level_in(&site.codes, &digest)
}

/// Whether a level is enough for an operation.
pub fn allowed(operation: &Operation, level: u8) -> Result<(), Denied>
    ensures allowed { needed_by operation.now ≤ level → IsOk result }
    ensures denied { level < needed_by operation.now
        → result ≡ Err (record { needs = needed_by operation.now; has = level }) }
{
    let needs = needed_by(operation);
    if level < needs {
        return Err(Denied { needs, has: level });
    }
    Ok(())
}

// The greatest level whose list has the digest of a code, else 1. The lists are those of levels 2, 3 and 4.
fn level_in(lists: &[Items<[u8; 32]>; 3], digest: &[u8; 32]) -> u8
    ensures { result ≡ level_in lists.now digest.now }
{
    let [second, third, fourth] = lists;
    if holds(fourth, digest) {
        4
    } else if holds(third, digest) {
        3
    } else if holds(second, digest) {
        2
    } else {
        1
    }
}

// Whether a level's list has the digest of a code.
fn holds(codes: &Items<[u8; 32]>, digest: &[u8; 32]) -> bool
    ensures { result ≡ holds codes.now digest.now }
{
    codes.as_slice().contains(digest)
}

// The least level of an operation.
fn needed_by(operation: &Operation) -> u8
    ensures { result ≡ needed_by operation.now }
{
    match operation {
        Operation::Mute | Operation::Override => 1,
        Operation::Silence
        | Operation::Resound
        | Operation::Reset
        | Operation::Cancel(_)
        | Operation::Disable(_)
        | Operation::Enable(_)
        | Operation::Delays(_) => 2,
        Operation::Test(_) | Operation::Untest(_) => 3,
        Operation::Clear => 4,
    }
}
