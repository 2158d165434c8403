ghost use Rattle.std.specs.Prelude.{◌≡◌, ◌++◌, ℕ, IfOk, OnOk};
ghost use Rattle.site_config.specs.Claims.{
  claims_by,
  claims_from,
  kept_place,
  marker_claim as marker_claim_of,
  output_claim as output_claim_of,
  point_claim as point_claim_of,
  zone_claim as zone_claim_of,
};
ghost use Rattle.site_config.specs.declared.claim.Claim.{Claim as ClaimOf};

use crate::claim::Claim;
use site_document::{Draft, DraftMarker, DraftOutput, DraftPoint, DraftZone, KeyText};
use site_types::Thing;
use std::alloc::{AllocError, Global};

/// What an item of a list claims.
pub trait Claimant {
    ghost claims: { ℕ → Self → ClaimOf };

    fn claim(&self, alloc: Global, place: u16) -> Result<Claim, AllocError>
    where
        Self: Sized,
        ensures { IfOk result (λ claim. claim ≡ claims place self.now) };
}

fn copy(alloc: Global, name: &KeyText) -> Result<KeyText, AllocError>
    ensures { IfOk result (λ text. text ≡ name.now) }
{
    KeyText::from_str(alloc, name.as_str())
}

impl Claimant for DraftZone {
    ghost claims = { zone_claim_of };

    fn claim(&self, alloc: Global, place: u16) -> Result<Claim, AllocError> {
        Ok(Claim {
            name: copy(alloc, &self.name)?,
            number: Some([1, self.panel, 0, self.number]),
            thing: Thing::Zone(place),
        })
    }
}

impl Claimant for DraftPoint {
    ghost claims = { point_claim_of };

    fn claim(&self, alloc: Global, place: u16) -> Result<Claim, AllocError> {
        Ok(Claim {
            name: copy(alloc, &self.name)?,
            number: Some([2, self.panel, self.line, self.address]),
            thing: Thing::Point(place),
        })
    }
}

impl Claimant for DraftOutput {
    ghost claims = { output_claim_of };

    fn claim(&self, alloc: Global, place: u16) -> Result<Claim, AllocError> {
        Ok(Claim {
            name: copy(alloc, &self.name)?,
            number: Some([3, self.panel, 0, self.number]),
            thing: Thing::Output(place),
        })
    }
}

impl Claimant for DraftMarker {
    ghost claims = { marker_claim_of };

    fn claim(&self, alloc: Global, place: u16) -> Result<Claim, AllocError> {
        Ok(Claim {
            name: copy(alloc, &self.name)?,
            number: None,
            thing: Thing::Marker(place),
        })
    }
}

/// Puts what the items of a list claim behind the claims made.
fn put_claims<T: Claimant>(
    alloc: Global,
    claims: &mut Vec<Claim>,
    items: &[T],
) -> Result<(), AllocError>
    ensures { OnOk result (claims.new.items ≡ claims.old.items
        ++ claims_from (λ place. T.claims (kept_place place)) 0 items.now) }
{
    'items: for (index, item) in items.iter().enumerate() {
        claims.push(item.claim(alloc, place_of(index))?)?;
    }
    Ok(())
}

// A place as a site keeps it. A list with more items than fit claims some number twice, and is refused for that.
fn place_of(index: usize) -> u16
    ensures { result ≡ kept_place index }
{
    index.min(65535) as u16
}

/// What the zones, points, outputs and markers of a draft claim, in this order.
pub fn claims_of(alloc: Global, draft: &Draft) -> Result<Vec<Claim>, AllocError>
    ensures { IfOk result (λ claims. claims.items ≡ claims_by kept_place draft.now) }
{
    let mut claims = Vec::new(alloc);
    put_claims(alloc, &mut claims, draft.zones.as_slice())?;
    put_claims(alloc, &mut claims, draft.points.as_slice())?;
    put_claims(alloc, &mut claims, draft.outputs.as_slice())?;
    put_claims(alloc, &mut claims, draft.markers.as_slice())?;
    Ok(claims)
}
