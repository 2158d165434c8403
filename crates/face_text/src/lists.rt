//! The lists of a face in JSON, from the same slots as the lines.

ghost use Rattle.std.specs.Prelude.{◌≡◌};
ghost use Rattle.panel_edges.specs.Faults.{HasCause};
ghost use Rattle.face_text.specs.Holding.{Puts};
ghost use Rattle.face_text.specs.Lists.{list_text};

use crate::face::Face;
use crate::face_items::FaceItems;
use crate::face_list::FaceList;
use crate::held::Held;
use panel_edges::{Failed, Sink};
use site_types::Site;

/// Puts a list of a face as JSON behind what is held: a text for each slot that is on, in the order of the
/// page. Names of a valid site need no escapes.
///
/// # Errors
///
/// At the first write that fails. Some front of what was held and of the text is written then.
pub fn push_list<K: Sink>(
    site: &Site,
    face: &Face,
    list: FaceList,
    held: &mut Held,
    out: &mut K,
) -> Result<(), Failed>
    ensures text { Puts held.old held.new (K.written out.old) (K.written out.new)
        (list_text site.now face.now list) result }
    ensures cause { HasCause (K.write_faults out.old) (K.write_faults out.new) result }
    ensures left { K.left out.new ≡ K.left out.old }
    ensures reads { K.read_faults out.new ≡ K.read_faults out.old }
{
    held.push(b"[", out)?;
    let items = FaceItems { site, face, list };
    items.push_all(held, out)?;
    held.push(b"]", out)
}
