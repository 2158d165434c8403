//! Writing what is shown at opening, and what changed and was answered in a tick.

ghost use Rattle.std.specs.Prelude.{◌≡◌, ◌++◌, length, OnErr, OnOk};
ghost use Rattle.std.specs.List.{list_any};
ghost use Rattle.face_text.specs.Faces.{has_some};
ghost use Rattle.face_text.specs.Timelines.{faces_text, opening_line as line_of_opening};
ghost use Rattle.panel_edges.specs.Contents.{Grows, GrowsByFront};
ghost use Rattle.panel_edges.specs.Faults.{HasCause};
ghost use Rattle.site_run.specs.Pages.{has_answers as has_answers_told, is_told as is_told_of};
ghost use Rattle.site_run.specs.Pages.{AreTellable, page_text};
ghost use Rattle.site_run.specs.Pages.{written_text};

use crate::lines::{opening_line, tick_line};
use crate::tick_faces::TickFaces;
use face_text::{Answers, Face, Held, Starts, push_answers};
use panel_edges::{Failed, Sink, SoundMemorySink, write_all};
use site_types::Site;

/// The bytes of the page on which the text of a tick is put together.
pub const PAGE_BYTES: usize = 65_536;

/// Writes the first lines of a run: the site, and what its panels show otherwise than before.
pub fn write_opening<K: Sink>(
    site: &Site,
    before: &[Face],
    after: &[Face],
    out: &mut K,
) -> Result<(), Failed>
    requires { length before.now ≡ length after.now }
    ensures ok { OnOk result (Grows (K.written out.old) (K.written out.new)
        (line_of_opening site.now ++ faces_text site.now before.now after.now)) }
    ensures err { OnErr result (GrowsByFront (K.written out.old) (K.written out.new)
        (line_of_opening site.now ++ faces_text site.now before.now after.now)) }
    ensures cause { HasCause (K.write_faults out.old) (K.write_faults out.new) result }
{
    let mut held = Held::new();
    held.push(opening_line(site).as_str().as_bytes(), out)?;
    let faces = TickFaces {
        site,
        starts: &Starts::none(),
        alike: &[false; 8],
        before,
        after,
    };
    faces.push_faces(&mut held, out)?;
    held.flush(out)
}

/// What changed in a tick and was answered in it.
#[derive(Clone, Copy)]
pub struct TickPage<'a> {
    pub tick: u64,
    pub faces: TickFaces<'a>,
    pub answers: &'a Answers,
}

impl TickPage<'_> {
    /// Writes it, in one piece where it fits the page. Where there is nothing to tell nothing is written.
    pub fn write<K: Sink>(&self, page: &mut SoundMemorySink, out: &mut K) -> Result<(), Failed>
        requires { AreTellable self.now.faces }
        ensures ok { OnOk result (Grows (K.written out.old) (K.written out.new)
            (written_text self.now.faces.site.now self.now.tick self.now.faces.before.now
            self.now.faces.after.now self.now.answers.now)) }
        ensures err { OnErr result (GrowsByFront (K.written out.old) (K.written out.new)
            (written_text self.now.faces.site.now self.now.tick self.now.faces.before.now
            self.now.faces.after.now self.now.answers.now)) }
        ensures cause { HasCause (K.write_faults out.old) (K.write_faults out.new) result }
        ensures left { K.left out.new ≡ K.left out.old }
        ensures reads { K.read_faults out.new ≡ K.read_faults out.old }
    {
        if !self.is_told() {
            return Ok(());
        }
        page.bytes.clear();
        page.passed = false;
        let put = self.put(page);
        if put.is_err() || page.passed {
            return self.put(out);
        }
        write_all(out, page.bytes.as_slice())
    }

    // Whether there is anything to tell.
    fn is_told(&self) -> bool
        requires { AreTellable self.now.faces }
        ensures { result ≡ is_told_of self.now.faces.before.now self.now.faces.after.now
            self.now.answers.now }
    {
        self.faces.differ() || has_answers(self.answers)
    }

    // Puts its lines, in as few pieces as the room for lines allows.
    fn put<K: Sink>(&self, out: &mut K) -> Result<(), Failed>
        requires { AreTellable self.now.faces }
        ensures ok { OnOk result (Grows (K.written out.old) (K.written out.new)
            (page_text self.now.faces.site.now self.now.tick self.now.faces.before.now
            self.now.faces.after.now self.now.answers.now)) }
        ensures err { OnErr result (GrowsByFront (K.written out.old) (K.written out.new)
            (page_text self.now.faces.site.now self.now.tick self.now.faces.before.now
            self.now.faces.after.now self.now.answers.now)) }
        ensures cause { HasCause (K.write_faults out.old) (K.write_faults out.new) result }
        ensures left { K.left out.new ≡ K.left out.old }
        ensures reads { K.read_faults out.new ≡ K.read_faults out.old }
    {
        let mut held = Held::new();
        held.push(tick_line(self.tick).as_str().as_bytes(), out)?;
        self.faces.push_faces(&mut held, out)?;
        push_answers(self.answers, &mut held, out)?;
        held.flush(out)
    }
}

/// Whether something was answered, an operation found its panel busy, or Keep's turn failed.
pub(crate) fn has_answers(answers: &Answers) -> bool
    ensures { result ≡ has_answers_told answers.now }
{
    !answers.ops.as_slice().is_empty() || has_busy(&answers.busy) || answers.failed
}

// Whether an operation found its panel busy.
fn has_busy(busy: &[u64; 8]) -> bool
    ensures { result ≡ list_any has_some busy.now }
{
    busy.iter().any(|count| *count != 0)
}
