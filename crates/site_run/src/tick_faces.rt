ghost use Rattle.std.specs.Prelude.{◌≡◌, ◌<◌, false, length, not, slice_get, slice_index_or, true};
ghost use Rattle.face_text.specs.Changes.{changes_text};
ghost use Rattle.face_text.specs.Faces.{same_face, same_faces};
ghost use Rattle.face_text.specs.Holding.{Puts};
ghost use Rattle.face_text.specs.Starts.{ArePassed};
ghost use Rattle.face_text.specs.Timelines.{faces_text};
ghost use Rattle.panel_edges.specs.Faults.{HasCause};
ghost use Rattle.site_run.specs.AlikeFaces.{AllAlike};
ghost use Rattle.site_run.specs.Pages.{AreTellable};

use face_text::{Face, Held, Starts, push_changes};
use panel_edges::{Failed, Sink};
use site_types::Site;

/// What the panels of a site show before and after a tick.
#[derive(Clone, Copy)]
pub struct TickFaces<'a> {
    pub site: &'a Site,
    /// Where the things of each panel begin in the site's lists.
    pub starts: &'a Starts,
    /// The panels that are known to show the same before and after, panel 1 first.
    pub alike: &'a [bool; 8],
    pub before: &'a [Face],
    pub after: &'a [Face],
}

impl TickFaces<'_> {
    // Whether some panel shows something else than before.
    pub(crate) fn differ(&self) -> bool
        requires { AreTellable self.now }
        ensures { result ≡ not (same_faces self.now.after.now self.now.before.now) }
    {
        for place in 0..self.after.len() {
            if self.differ_at(place) {
                return true;
            }
        }
        false
    }

    // Whether the panel at a place shows something else than before.
    fn differ_at(&self, place: usize) -> bool
        requires faces { AreTellable self.now }
        requires place { place < length self.now.after.now }
        ensures differ { result ≡ true
            → same_faces self.now.after.now self.now.before.now ≡ false }
        ensures same { result ≡ false
            → slice_get self.now.before.now place ≡ slice_get self.now.after.now place }
    {
        if is_alike(self.alike, place) {
            return false;
        }
        !are_same(&self.after[place], &self.before[place])
    }

    // Puts the lines of what changed, panel by panel.
    pub(crate) fn push_faces<K: Sink>(&self, held: &mut Held, out: &mut K) -> Result<(), Failed>
        requires { AreTellable self.now }
        ensures text { Puts held.old held.new (K.written out.old) (K.written out.new)
            (faces_text self.now.site.now self.now.before.now self.now.after.now) result }
        ensures cause { HasCause (K.write_faults out.old) (K.write_faults out.new) result }
        ensures left { K.left out.new ≡ K.left out.old }
        ensures reads { K.read_faults out.new ≡ K.read_faults out.old }
    {
        for place in 0..self.after.len() {
            let alike = is_alike(self.alike, place);
            self.push_panel(alike, &self.before[place], &self.after[place], held, out)?;
        }
        Ok(())
    }

    // Puts the lines of what changed at one panel, of which nothing is looked at where it is known to show the same.
    fn push_panel<K: Sink>(
        &self,
        alike: bool,
        before: &Face,
        after: &Face,
        held: &mut Held,
        out: &mut K,
    ) -> Result<(), Failed>
        requires passed { ArePassed self.now.site.now self.now.starts.now }
        requires alike { alike ≡ true → before.now ≡ after.now }
        ensures text { Puts held.old held.new (K.written out.old) (K.written out.new)
            (changes_text self.now.site.now before.now after.now) result }
        ensures cause { HasCause (K.write_faults out.old) (K.write_faults out.new) result }
        ensures left { K.left out.new ≡ K.left out.old }
        ensures reads { K.read_faults out.new ≡ K.read_faults out.old }
    {
        if alike {
            return Ok(());
        }
        push_changes(self.site, self.starts, before, after, held, out)
    }
}

/// Whether each of so many panels is known to show the same before and after.
pub(crate) fn are_alike(alike: &[bool; 8], panels: usize) -> bool
    ensures { result ≡ true → AllAlike alike.now panels }
{
    for place in 0..panels {
        if !is_alike(alike, place) {
            return false;
        }
    }
    true
}

fn is_alike(alike: &[bool; 8], place: usize) -> bool
    ensures { result ≡ slice_index_or alike.now place false }
{
    match alike.get(place) {
        Some(alike) => *alike,
        None => false,
    }
}

fn are_same(one: &Face, other: &Face) -> bool
    ensures { result ≡ same_face one.now other.now }
{
    one == other
}
