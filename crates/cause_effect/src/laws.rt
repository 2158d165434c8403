//! Laws of the definitions: the contracts of functions that do nothing.

ghost use Rattle.std.specs.Prelude.{◌≡◌, ℕ, Bool, true};
ghost use Rattle.site_types.specs.declared.site.Site.{Site};
ghost use Rattle.marker_table.specs.declared.facts.Facts.{Facts};
ghost use Rattle.cause_effect.specs.Changes.{DependsOnChanged, IsNumberOf};
ghost use Rattle.cause_effect.specs.Cycles.{HasNoCycle};
ghost use Rattle.cause_effect.specs.Solutions.{AreWithin, HasOneSolution, IsSolution};
ghost use Rattle.cause_effect.specs.Written.{AreTwo, ChangesZone, IsChain};

/// Where no marker depends on itself there is exactly one solution, whatever the facts.
pub fn one_solution()
    ensures { (site : Site) (facts : Facts) → HasNoCycle site → HasOneSolution site facts }
{}

/// Where more is true, no marker is true no more.
pub fn more_facts_keep_markers()
    ensures { (site : Site) (fewer more : Facts) (before after : ℕ → Bool) → HasNoCycle site
        → AreWithin fewer more → IsSolution site fewer before → IsSolution site more after → (m : ℕ)
        → before m ≡ true → after m ≡ true }
{}

/// There is but one number of the markers that depend on a change.
pub fn one_number_of_changes()
    ensures { (site : Site) (before after : Facts) (m n : ℕ)
        → IsNumberOf (DependsOnChanged site before after) m
        → IsNumberOf (DependsOnChanged site before after) n → m ≡ n }
{}

/// How many markers depend on one zone that changed: of two markers one or both, and of a chain, however
/// long, the last alone where its last zone changes.
pub fn changes_of_written_cases()
    ensures one_of_two { (site : Site) (before after : Facts) (hall lab : ℕ) → AreTwo site hall lab
        → ChangesZone site before after lab → IsNumberOf (DependsOnChanged site before after) 1 }
    ensures both_of_two { (site : Site) (before after : Facts) (hall lab : ℕ) → AreTwo site hall lab
        → ChangesZone site before after hall → IsNumberOf (DependsOnChanged site before after) 2 }
    ensures last_of_chain { (site : Site) (before after : Facts) (count hall lab : ℕ)
        → IsChain site count hall lab → ChangesZone site before after lab
        → IsNumberOf (DependsOnChanged site before after) 1 }
{}
