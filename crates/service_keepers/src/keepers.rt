ghost use Rattle.std.specs.Prelude.{◌≡◌, ℕ, Option, Some, option_map, IfOk, IfSome, OnErr, OnOk};
ghost use Rattle.service_keepers.specs.Keeping.{ChangesBy, HasKeepCause, PutsTest, PutsVisit};
ghost use Rattle.service_keepers.specs.Rows.{test_of, visit_row};
ghost use Rattle.service_keepers.specs.Tables.{AreDistinct, Tables, last_day_of, visit_numbered};

use crate::keep_fault::KeepFault;
use crate::visit::Visit;
use panel_edges::Label;

/// Two tables that outlive the program: visits, and which points each tested.
pub trait Keeper {
    /// What is kept, where the keeper tells it.
    ghost tables: { Self → Option Tables };

    /// How often a call has failed.
    ghost faults: { Self → ℕ };

    /// Adds a visit. Where one of its number is kept, it changes nothing.
    fn put_visit(&mut self, visit: &Visit) -> Result<(), KeepFault>
        ensures ok { OnOk result
            (ChangesBy (PutsVisit (visit_row visit.now)) (tables self.old) (tables self.new)) }
        ensures err { OnErr result (tables self.new ≡ tables self.old) }
        ensures cause { HasKeepCause (faults self.old) (faults self.new) result };

    /// The kept visit of a number, and None exactly where there is none.
    fn find_visit(&mut self, number: u32) -> Result<Option<Visit>, KeepFault>
        ensures found { IfOk result (λ visit. IfSome (tables self.old)
            (λ kept. option_map visit_row visit ≡ visit_numbered number kept.visits)) }
        ensures same { tables self.new ≡ tables self.old }
        ensures cause { HasKeepCause (faults self.old) (faults self.new) result };

    /// Adds that a visit tested a point. Where that is kept, it changes nothing.
    fn put_test(&mut self, visit: u32, point: &Label) -> Result<(), KeepFault>
        ensures ok { OnOk result
            (ChangesBy (PutsTest (test_of visit point.now)) (tables self.old) (tables self.new)) }
        ensures err { OnErr result (tables self.new ≡ tables self.old) }
        ensures cause { HasKeepCause (faults self.old) (faults self.new) result };

    /// The greatest day of the visits that tested a point, and None exactly where none did.
    fn last_day(&mut self, point: &Label) -> Result<Option<u32>, KeepFault>
        ensures day { IfOk result
            (λ day. IfSome (tables self.old) (λ kept. day ≡ last_day_of point.now.bytes kept)) }
        ensures same { tables self.new ≡ tables self.old }
        ensures cause { HasKeepCause (faults self.old) (faults self.new) result };

    /// No two visits that are told have one number, and no test is told twice.
    ghost distinct: { (keeper : Self) (kept : Tables) → tables keeper ≡ Some kept → AreDistinct kept };
}
