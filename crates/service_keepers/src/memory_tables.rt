ghost use Rattle.std.specs.Prelude.{IsTrue, map};
ghost use Rattle.service_keepers.specs.Rows.{test_row, visit_row};
ghost use Rattle.service_keepers.specs.Tables.{are_distinct_tests, have_distinct_numbers};

use crate::keep_fault::KeepFault;
use crate::point_test::PointTest;
use crate::visit::Visit;
use panel_edges::Label;
use std::alloc::Global;

/// The tables of a keeper in memory, each row behind those that were put before it.
#[derive(Drop)]
pub struct MemoryTables {
    pub visits: Vec<Visit>,
    pub tests: Vec<PointTest>,
    ghost numbers: { IsTrue (have_distinct_numbers (map visit_row visits.items)) },
    ghost pairs: { IsTrue (are_distinct_tests (map test_row tests.items)) },
}

impl MemoryTables {
    ghost use Rattle.std.specs.Prelude.{◌≡◌, ℕ, Err, option_map, IfErr, OnErr, OnOk};
    ghost use Rattle.service_keepers.specs.MemoryRows.{tables_of, with_test, with_visit};
    ghost use Rattle.service_keepers.specs.Rows.{test_of};
    ghost use Rattle.service_keepers.specs.Tables.{has_test, last_day_of, no_tables, visit_numbered};

    // Two empty tables.
    pub(crate) fn new(alloc: Global) -> MemoryTables
        ensures { tables_of result ≡ no_tables }
    {
        MemoryTables {
            visits: Vec::new(alloc),
            tests: Vec::new(alloc),
        }
    }

    pub(crate) fn put_visit(&mut self, visit: &Visit) -> Result<(), KeepFault>
        ensures ok { OnOk result
            (tables_of self.new ≡ with_visit (visit_row visit.now) (tables_of self.old)) }
        ensures err { OnErr result (tables_of self.new ≡ tables_of self.old) }
        ensures memory { IfErr result (λ fault. fault ≡ KeepFault.NoMemory) }
    {
        if self.find_visit(visit.number).is_some() {
            return Ok(());
        }
        match self.visits.push(*visit) {
            Ok(()) => Ok(()),
            Err(_) => Err(KeepFault::NoMemory),
        }
    }

    pub(crate) fn find_visit(&self, number: u32) -> Option<Visit>
        ensures { option_map visit_row result
            ≡ visit_numbered number (tables_of self.now).visits }
    {
        visit_in(&self.visits, number)
    }

    pub(crate) fn put_test(&mut self, visit: u32, point: &Label) -> Result<(), KeepFault>
        ensures ok { OnOk result
            (tables_of self.new ≡ with_test (test_of visit point.now) (tables_of self.old)) }
        ensures err { OnErr result (tables_of self.new ≡ tables_of self.old) }
        ensures memory { IfErr result (λ fault. fault ≡ KeepFault.NoMemory) }
    {
        if is_among(visit, point, &self.tests) {
            return Ok(());
        }
        let test = PointTest {
            visit,
            point: *point,
        };
        match self.tests.push(test) {
            Ok(()) => Ok(()),
            Err(_) => Err(KeepFault::NoMemory),
        }
    }

    pub(crate) fn last_day(&self, point: &Label) -> Option<u32>
        ensures { result ≡ last_day_of point.now.bytes (tables_of self.now) }
    {
        let mut last = None;
        for test in &self.tests {
            if test.point == *point {
                if let Some(visit) = visit_in(&self.visits, test.visit) {
                    last = Some(later(last, visit.day));
                }
            }
        }
        last
    }
}

ghost use Rattle.std.specs.Prelude.{◌≡◌, ℕ, Some, option_map};
ghost use Rattle.service_keepers.specs.Rows.{test_of};
ghost use Rattle.service_keepers.specs.Tables.{has_test, later_day, visit_numbered};

// The visit of a number.
fn visit_in(visits: &[Visit], number: u32) -> Option<Visit>
    ensures { option_map visit_row result ≡ visit_numbered number (map visit_row visits.now) }
{
    for visit in visits {
        if visit.number == number {
            return Some(*visit);
        }
    }
    None
}

// Whether a test of a point by a visit is among these.
fn is_among(visit: u32, point: &Label, tests: &[PointTest]) -> bool
    ensures { result ≡ has_test (test_of visit point.now) (map test_row tests.now) }
{
    for test in tests {
        if test.visit == visit && test.point == *point {
            return true;
        }
    }
    false
}

// The later of a day, where there is one, and another.
fn later(last: Option<u32>, day: u32) -> u32
    ensures { Some result ≡ later_day last day }
{
    match last {
        Some(last) => last.max(day),
        None => day,
    }
}
