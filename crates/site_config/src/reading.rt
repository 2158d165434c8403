ghost use Rattle.std.specs.Prelude.{◌≡◌, IfErr, IfOk};
ghost use Rattle.site_types.specs.Valid.{IsValid};
ghost use Rattle.site_document.specs.Documents.{IsRefusedBy};
ghost use Rattle.site_document.specs.Refusals.{Tells};
ghost use Rattle.site_config.specs.Claims.{named_in, twice_in};
ghost use Rattle.site_config.specs.NameMaps.{look_up};
ghost use Rattle.site_config.specs.Sites.{IsOfClean, IsPlaced, IsSpelled, draft_finding, site_finding};

use crate::claims::claims_of;
use crate::crossing::{check_sections, spots_of};
use crate::names::Names;
use crate::no_such::check_references;
use crate::partners::check_mutual;
use crate::placing::place_site;
use crate::twice::{check_claims, check_loops};
use site_document::{Draft, SiteRefusal, read_draft};
use site_types::Site;
use std::alloc::Global;

/// Reads a site file of any bytes, or answers why it is refused. Takes memory some times the file's length,
/// and time about that length times its logarithm.
pub fn read_site(alloc: Global, bytes: &[u8]) -> Result<Site, SiteRefusal>
    ensures site { IfOk result (IsSpelled bytes.now) }
    ensures valid { IfOk result IsValid }
    ensures refused { IfErr result (IsRefusedBy site_finding bytes.now) }
{
    let draft = read_draft(alloc, bytes)?;
    finish(alloc, draft)
}

/// The site of a draft, or what is wrong in it.
#[tactic(auto, unfolding(crate::specs::Sites::draft_finding))]
fn finish(alloc: Global, draft: Draft) -> Result<Site, SiteRefusal>
    requires { IsOfClean draft }
    ensures told { Tells result (draft_finding draft) }
    ensures site { IfOk result (IsPlaced draft) }
{
    let names = names_in(alloc, &draft)?;
    check_references(alloc, &names, &draft)?;
    let spots = spots_of(alloc, &names, draft.points.as_slice())?;
    check_sections(alloc, spots.as_slice(), draft.loops.as_slice())?;
    check_mutual(&names, draft.zones.as_slice())?;
    Ok(place_site(alloc, &names, draft)?)
}

/// What each name of a draft stands for, or the first name or number that stands there twice.
#[tactic(auto, unfolding(crate::specs::Claims::twice_in))]
fn names_in(alloc: Global, draft: &Draft) -> Result<Names, SiteRefusal>
    requires { IsOfClean draft.now }
    ensures told { Tells result (twice_in draft.now) }
    ensures named { IfOk result (λ names. look_up names ≡ named_in draft.now) }
{
    check_loops(alloc, draft.loops.as_slice())?;
    let claims = claims_of(alloc, draft)?;
    check_claims(alloc, claims.as_slice())
}
