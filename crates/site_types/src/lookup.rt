//! Looking up what a site has by name and by number.

ghost use Rattle.std.specs.Prelude.{◌≡◌, length, option_copied};
ghost use Rattle.std.specs.Cmp.Lexicographic.{slice_cmp};
ghost use Rattle.std.specs.Ordering.{nat_cmp};
ghost use Rattle.std.specs.List.Sorted.{IsBinarySearchResult, IsSearchInRange};
ghost use Rattle.site_types.specs.Valid.{IsRising, IsValid};
ghost use Rattle.site_types.specs.Things.{loop_of as plan_of, thing_in, thing_named};

use crate::loop_plan::LoopPlan;
use crate::named::{Named, Thing};
use crate::site::Site;
use std::cmp::Ordering;

impl Site {
    /// The point, zone, output or marker with a name, found in steps that grow with the logarithm of the
    /// number of names.
    pub fn find(&self, name: &[u8]) -> Option<Thing>
        requires { IsValid self.now }
        ensures { result ≡ thing_named self.now name.now }
    {
        find_in(self.names.as_slice(), name)
    }

    /// The loop of a panel with a number, among the loops that are listed.
    pub fn loop_of(&self, panel: u8, line: u8) -> Option<&LoopPlan>
        ensures { option_copied result ≡ plan_of self.now panel line }
    {
        self.loops
            .as_slice()
            .iter()
            .find(|plan| plan.panel == panel && plan.line == line)
    }
}

/// The thing that a name stands for in a list of names.
fn find_in(names: &[Named], name: &[u8]) -> Option<Thing>
    requires { IsRising names.now }
    ensures { result ≡ thing_in names.now name.now }
{
    match search(names, name) {
        Ok(place) => Some(names[place].thing),
        Err(_) => None,
    }
}

/// The place of a name, or where it would stand.
fn search(names: &[Named], name: &[u8]) -> Result<usize, usize>
    ensures bound { IsSearchInRange result (length names.now) }
    ensures position { IsBinarySearchResult (λ named. slice_cmp nat_cmp named.name.bytes name.now)
        names.now result }
{
    names.binary_search_by(|named| order(named, name))
}

/// How an entry stands to a name in the order of bytes.
fn order(named: &Named, name: &[u8]) -> Ordering
    ensures { result ≡ slice_cmp nat_cmp named.now.name.bytes name.now }
{
    named.name.as_str().as_bytes().cmp(name)
}
