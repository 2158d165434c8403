//! Findings that are put together to runs.

ghost use Rattle.std.specs.Prelude.{◌≡◌, ◌≤◌, ◌+◌, ◌∷◌, ◌++◌, [], false, true};
ghost use Rattle.answer_lanes.specs.Points.{finding_at};
ghost use Rattle.answer_lanes.specs.Runs.{HasShortCount, items_of};

use crate::finding_group::FindingGroup;
use crate::run::Run;
use coincidence_rules::Finding;

impl Run<FindingGroup> {
    ghost use Rattle.answer_lanes.specs.Groups.{CannotTake};

    /// A run that holds nothing yet.
    pub fn none() -> Run<FindingGroup>
        ensures items { items_of finding_at result ≡ [] }
        ensures short { HasShortCount result }
        ensures eight { result.taken + result.count ≤ 8 }
    {
        Run::default()
    }

    /// Puts a finding behind the others, where it is of the point behind theirs and can stand with them. A run that
    /// holds nothing takes each.
    pub fn push(&mut self, finding: &Finding) -> bool
        requires { HasShortCount self.old }
        ensures put { result ≡ true
            → items_of finding_at self.new ≡ items_of finding_at self.old ++ finding.now ∷ [] }
        ensures kept { result ≡ false → self.new ≡ self.old }
        ensures refused { result ≡ false → CannotTake finding.now self.old }
        ensures short { HasShortCount self.new }
        ensures eight { result ≡ true → self.new.taken + self.new.count ≤ 8 }
    {
        if self.count == 0 {
            *self = Run::one(*finding);
            return true;
        }
        let place = self.taken + self.count;
        if !self.first.can_have(place, finding) {
            return false;
        }
        self.first.set(place, finding);
        self.count += 1;
        true
    }
}
