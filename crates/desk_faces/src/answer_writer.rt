ghost use Rattle.std.specs.Prelude.{◌≡◌, ◌≤◌, [], is_err, length};
ghost use Rattle.face_text.specs.Lists.{list_text};
ghost use Rattle.desk_faces.specs.Outlets.{AddsText, EndsAnswer, Outlet, IsTold, outlet};

use face_text::{Face, FaceList, Held, push_list};
use panel_edges::{Failed, Sink};
use site_types::Site;

// An answer as it is written. What is pushed comes behind what was pushed before; once a write has failed, nothing
// more is written.
#[derive(Drop)]
pub(crate) struct AnswerWriter {
    pub(crate) held: Held,
    pub(crate) failed: bool,
}

impl AnswerWriter {
    // An answer of which nothing is written.
    pub(crate) fn new() -> AnswerWriter
        ensures { (begun : Outlet) → IsTold begun begun result [] }
    {
        AnswerWriter {
            held: Held::new(),
            failed: false,
        }
    }

    // Puts a text of at most 1,024 bytes behind the rest.
    pub(crate) fn push<K: Sink>(&mut self, text: &[u8], out: &mut K)
        requires { length text.now ≤ 1024 }
        ensures text { AddsText (outlet (K.written out.old) (K.write_faults out.old)) self.old
            (outlet (K.written out.new) (K.write_faults out.new)) self.new text.now }
        ensures left { K.left out.new ≡ K.left out.old }
        ensures reads { K.read_faults out.new ≡ K.read_faults out.old }
    {
        if self.failed {
            return;
        }
        self.failed = has_failed(self.held.push(text, out));
    }

    // Puts a list of a face behind the rest.
    pub(crate) fn push_list<K: Sink>(
        &mut self,
        site: &Site,
        face: &Face,
        list: FaceList,
        out: &mut K,
    )
        ensures text { AddsText (outlet (K.written out.old) (K.write_faults out.old)) self.old
            (outlet (K.written out.new) (K.write_faults out.new)) self.new
            (list_text site.now face.now list) }
        ensures left { K.left out.new ≡ K.left out.old }
        ensures reads { K.read_faults out.new ≡ K.read_faults out.old }
    {
        if self.failed {
            return;
        }
        self.failed = has_failed(push_list(site, face, list, &mut self.held, out));
    }

    // Writes what is still held back.
    // It fails where a write has failed, now or before, and some front of all that was pushed is written then.
    pub(crate) fn finish<K: Sink>(&mut self, out: &mut K) -> Result<(), Failed>
        ensures text { EndsAnswer (outlet (K.written out.old) (K.write_faults out.old)) self.old
            (outlet (K.written out.new) (K.write_faults out.new)) result }
        ensures left { K.left out.new ≡ K.left out.old }
        ensures reads { K.read_faults out.new ≡ K.read_faults out.old }
    {
        if self.failed {
            return Err(Failed);
        }
        self.held.flush(out)
    }
}

fn has_failed(done: Result<(), Failed>) -> bool
    ensures { result ≡ is_err done }
{
    done.is_err()
}
