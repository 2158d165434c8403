//! The faces of all panels, and whether they show the same.

ghost use Rattle.std.specs.Prelude.{◌≡◌, IfOk};
ghost use Rattle.site_types.specs.Valid.{IsValid};
ghost use Rattle.face_text.specs.Faces.{same_faces};
ghost use Rattle.panel_rules.specs.Moments.{tick_of};
ghost use Rattle.panel_rules.specs.Timeline.{faces_of};
ghost use Rattle.plain_history.specs.Histories.{history};
ghost use Rattle.plain_panel.specs.Keepings.{StandsForKeeping};

use crate::face_shown::face_of;
use crate::keeping::Keeping;
use face_text::Face;
use plain_history::{Moment, Settings};
use site_types::{Retained, Site};
use std::alloc::Global;
use tick_units::{NoMemory, Tick};

/// The faces of all panels of a site after these moments, by panel.
pub fn faces_now(
    alloc: Global,
    keeping: &Keeping,
    site: &Site,
    kept: &Retained,
    tick: Tick,
    before: &[Moment],
) -> Result<Vec<Face>, NoMemory>
    requires valid { IsValid site.now }
    requires stands { StandsForKeeping site.now kept.now (history before.now) keeping.now }
    requires ticks { tick_of (history before.now) ≡ tick.0 }
    ensures { IfOk result (λ faces. faces.items ≡ faces_of site.now kept.now (history before.now)) }
{
    let mut faces = Vec::new(alloc);
    for place in 0..site.panels {
        faces.push(face_now(keeping, site, kept, place + 1, tick, before))?;
    }
    Ok(faces)
}

ghost use Rattle.site_types.specs.Valid.{IsPanel};
ghost use Rattle.panel_rules.specs.Timeline.{face_of as face_after};

// The face of a panel after these moments.
fn face_now(
    keeping: &Keeping,
    site: &Site,
    kept: &Retained,
    panel: u8,
    tick: Tick,
    before: &[Moment],
) -> Face
    requires valid { IsValid site.now }
    requires stands { StandsForKeeping site.now kept.now (history before.now) keeping.now }
    requires ticks { tick_of (history before.now) ≡ tick.0 }
    requires panel { IsPanel site.now panel }
    ensures { result ≡ face_after site.now kept.now panel (history before.now) }
{
    let settings = Settings {
        site,
        kept,
        done: keeping.desk.outcomes().done.as_slice(),
    };
    face_of(
        &keeping.state.network,
        &keeping.state.driving,
        &settings,
        &keeping.stored,
        panel,
        tick,
    )
}

/// Whether the faces of all panels show the same.
pub fn are_same(one: &[Face], other: &[Face]) -> bool
    ensures { result ≡ same_faces one.now other.now }
{
    one == other
}
