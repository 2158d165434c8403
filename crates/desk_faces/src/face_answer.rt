ghost use Rattle.std.specs.Prelude.{◌≡◌, ◌++◌};
ghost use Rattle.desk_answers.specs.AnswerHeads.{answer_head};
ghost use Rattle.desk_answers.specs.declared.content.Content.TheVariants.{Json};
ghost use Rattle.desk_faces.specs.FaceObjects.{face_lists, face_object};
ghost use Rattle.desk_faces.specs.Outlets.{AddsText, WritesText, outlet};
ghost use Rattle.desk_requests.specs.declared.status.Status.TheVariants.{Done};

use crate::answer_writer::AnswerWriter;
use crate::face_parts::{before_tests, before_zones, front};
use desk_answers::{Content, head};
use desk_requests::Status;
use face_text::{Face, FaceList};
use panel_edges::{Failed, Sink};
use site_types::Site;

/// Answers with the face of a panel at the end of a tick.
///
/// # Errors
///
/// At the first write that fails. Some front of the answer is written then.
pub fn answer_face<K: Sink>(site: &Site, face: &Face, tick: u64, out: &mut K) -> Result<(), Failed>
    ensures text { WritesText (outlet (K.written out.old) (K.write_faults out.old))
        (outlet (K.written out.new) (K.write_faults out.new))
        (answer_head Done Json ++ face_object site.now face.now tick) result }
    ensures left { K.left out.new ≡ K.left out.old }
    ensures reads { K.read_faults out.new ≡ K.read_faults out.old }
{
    let opening = head(Status::Done, Content::Json);
    let start = front(face);
    let mut writer = AnswerWriter::new();
    writer.push(opening.as_str().as_bytes(), out);
    writer.push(start.as_str().as_bytes(), out);
    push_lists(&mut writer, site, face, tick, out);
    writer.finish(out)
}

// Puts the lists of a face behind its front, and what stands between them and behind them.
fn push_lists<K: Sink>(writer: &mut AnswerWriter, site: &Site, face: &Face, tick: u64, out: &mut K)
    ensures text { AddsText (outlet (K.written out.old) (K.write_faults out.old)) writer.old
        (outlet (K.written out.new) (K.write_faults out.new)) writer.new
        (face_lists site.now face.now tick) }
    ensures left { K.left out.new ≡ K.left out.old }
    ensures reads { K.read_faults out.new ≡ K.read_faults out.old }
{
    let panel_told = before_tests(face.panel);
    let tick_told = before_zones(tick);
    writer.push_list(site, face, FaceList::Disabled, out);
    writer.push(b",\"faults\":", out);
    writer.push_list(site, face, FaceList::Faults, out);
    writer.push(b",\"first\":", out);
    writer.push_list(site, face, FaceList::Firsts, out);
    writer.push(b",\"outputs\":", out);
    writer.push_list(site, face, FaceList::Outputs, out);
    writer.push(panel_told.as_str().as_bytes(), out);
    writer.push_list(site, face, FaceList::Tests, out);
    writer.push(tick_told.as_str().as_bytes(), out);
    writer.push_list(site, face, FaceList::Zones, out);
    writer.push(b"}\n", out);
}
