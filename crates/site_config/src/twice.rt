ghost use Rattle.std.specs.Prelude.{◌≡◌, ◌∷◌, ℕ, List, [], IfOk, OnOk, Some, codes};
ghost use Rattle.std.specs.List.{list_any};
ghost use Rattle.site_document.specs.declared.row_kind.RowKind.TheVariants.{Loop};
ghost use Rattle.site_document.specs.Refusals.{IsSaid, Tells, twice as is_twice};
ghost use Rattle.site_document.specs.Texts.{key_text};
ghost use Rattle.site_config.specs.declared.claim.Claim.{Claim as ClaimOf};
ghost use Rattle.site_config.specs.Claims.{first_twice, is_claimed as is_claimed_in, is_same_loop as is_same_loop_of};
ghost use Rattle.site_config.specs.Claims.{loop_twice, onto, thing_named};
ghost use Rattle.site_config.specs.Held.{Holds};
ghost use Rattle.site_config.specs.NameMaps.{look_up};

use crate::claim::Claim;
use crate::names::{Names, Numbers, has_number, put_name, put_number, thing_of};
use site_document::{KeyText, Place, RowKind, SiteRefusal};
use site_types::LoopPlan;
use std::alloc::{AllocError, Global};
use std::collections::BTreeMap;

/// Refuses the first loop whose panel and number stand before. At most a loop for each of them stands before that one.
pub fn check_loops(alloc: Global, loops: &[LoopPlan]) -> Result<(), SiteRefusal>
    ensures { Tells result (loop_twice [] 1 loops.now) }
{
    'loops: for (index, plan) in loops.iter().enumerate() {
        if is_listed(plan, &loops[..index]) {
            return Err(second_loop(alloc, index + 1));
        }
    }
    Ok(())
}

fn is_listed(plan: &LoopPlan, before: &[LoopPlan]) -> bool
    ensures { result ≡ list_any (is_same_loop_of plan.now) before.now }
{
    before.iter().any(|other| is_same_loop(plan, other))
}

fn is_same_loop(plan: &LoopPlan, other: &LoopPlan) -> bool
    ensures { result ≡ is_same_loop_of plan.now other.now }
{
    plan.panel == other.panel && plan.line == other.line
}

fn second_loop(alloc: Global, number: usize) -> SiteRefusal
    ensures { IsSaid result
        (Some (is_twice (key_text (record { kind = Loop; number = number }) (codes "loop")))) }
{
    let place = Place {
        kind: RowKind::Loop,
        number,
    };
    match place.key_text(alloc, "loop") {
        Ok(text) => SiteRefusal::Twice(text),
        Err(_) => SiteRefusal::NoMemory,
    }
}

/// Refuses the first claim that was made before, or answers what each name stands for.
pub fn check_claims(alloc: Global, claims: &[Claim]) -> Result<Names, SiteRefusal>
    ensures told { Tells result (first_twice [] claims.now) }
    ensures named { IfOk result (λ names. (q : List ℕ)
        → look_up names q ≡ thing_named (onto [] claims.now) q) }
{
    let mut names = BTreeMap::new(alloc);
    let mut numbers = BTreeMap::new(alloc);
    'claims: for claim in claims {
        if is_claimed(&names, &numbers, claim) {
            return Err(second(alloc, claim));
        }
        put_claim(alloc, &mut names, &mut numbers, claim)?;
    }
    Ok(names)
}

fn is_claimed(names: &Names, numbers: &Numbers, claim: &Claim) -> bool
    ensures { (before : List ClaimOf) → Holds before names.now numbers.now
        → result ≡ is_claimed_in before claim.now }
{
    if thing_of(names, claim.name.as_str()).is_some() {
        return true;
    }
    match claim.number {
        None => false,
        Some(number) => has_number(numbers, number),
    }
}

fn put_claim(
    alloc: Global,
    names: &mut Names,
    numbers: &mut Numbers,
    claim: &Claim,
) -> Result<(), AllocError>
    ensures { (before : List ClaimOf) → Holds before names.old numbers.old
        → OnOk result (Holds (claim.now ∷ before) names.new numbers.new) }
{
    put_name(alloc, names, claim.name.as_str(), claim.thing)?;
    if let Some(number) = claim.number {
        put_number(numbers, number)?;
    }
    Ok(())
}

fn second(alloc: Global, claim: &Claim) -> SiteRefusal
    ensures { IsSaid result (Some (is_twice claim.now.name)) }
{
    match KeyText::from_str(alloc, claim.name.as_str()) {
        Ok(text) => SiteRefusal::Twice(text),
        Err(_) => SiteRefusal::NoMemory,
    }
}
