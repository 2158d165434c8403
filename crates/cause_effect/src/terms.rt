//! The markers among some terms, and which of them have been placed.

ghost use Rattle.std.specs.Prelude.{◌≡◌, [], ◌∷◌, ◌++◌, List, false, slice_index_or};
ghost use Rattle.std.specs.List.{list_all};
ghost use Rattle.site_types.specs.declared.term.Term.{Term as TermOf};
ghost use Rattle.cause_effect.specs.Placed.{LeastLeftIs, is_placed as is_past, is_term_placed as is_term_past};

use site_types::Term;

// Whether a marker has been placed.
fn is_placed(marker: u16, placed: &[bool; 256]) -> bool
    ensures { result ≡ is_past placed.now marker }
{
    match placed.get(marker as usize) {
        Some(value) => *value,
        None => false,
    }
}

// Whether a term is no marker, or one that has been placed.
fn is_term_placed(term: Term, placed: &[bool; 256]) -> bool
    ensures { result ≡ is_term_past placed.now term }
{
    match term {
        Term::Marker(other) => is_placed(other, placed),
        Term::Zone(_) | Term::Manual(_) | Term::Fault(_) => true,
    }
}

// Whether each marker among the terms has been placed.
pub(crate) fn are_placed(terms: &[Term], placed: &[bool; 256]) -> bool
    ensures { result ≡ list_all (is_term_past placed.now) terms.now }
{
    terms.iter().all(|term| is_term_placed(*term, placed))
}

// The least marker among the terms that hasn't been placed.
pub(crate) fn least_left(terms: &[Term], placed: &[bool; 256]) -> Option<u16>
    ensures { LeastLeftIs placed.now terms.now result }
{
    let mut least = None;
    for term in terms {
        least = lesser(least, *term, placed);
    }
    least
}

// The least marker that hasn't been placed among some terms and one more.
fn lesser(least: Option<u16>, term: Term, placed: &[bool; 256]) -> Option<u16>
    ensures { (terms : List TermOf) → LeastLeftIs placed.now terms least
        → LeastLeftIs placed.now (terms ++ term ∷ []) result }
{
    let Term::Marker(other) = term else {
        return least;
    };
    if is_placed(other, placed) {
        return least;
    }
    match least {
        Some(found) if found <= other => least,
        _ => Some(other),
    }
}
