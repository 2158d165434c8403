ghost use Rattle.std.specs.Prelude.{◌≡◌, ◌++◌, OnErr, OnOk};
ghost use Rattle.desk_answers.specs.AnswerHeads.{answer_head};
ghost use Rattle.desk_answers.specs.Objects.{object_text};
ghost use Rattle.desk_answers.specs.ProfileTables.{table_text};
ghost use Rattle.desk_answers.specs.declared.content.Content.TheVariants.{Json};
ghost use Rattle.desk_requests.specs.declared.status.Status.TheVariants.{Done};
ghost use Rattle.panel_edges.specs.Contents.{Grows, GrowsByFront};
ghost use Rattle.panel_edges.specs.Faults.{HasCause};

use crate::content::Content;
use crate::heads::head;
use crate::object::Object;
use crate::object_texts::text_of;
use crate::tables::table;
use arrayvec::ArrayString;
use desk_requests::Status;
use panel_edges::{Failed, Sink, write_all};
use site_types::Profile;

/// Answers with an object.
///
/// # Errors
///
/// At the first write that fails. Some front of the answer is written then; so for each answer below.
pub fn answer_object<K: Sink>(status: Status, object: &Object, out: &mut K) -> Result<(), Failed>
    ensures ok { OnOk result (Grows (K.written out.old) (K.written out.new)
        (answer_head status Json ++ object_text object.now)) }
    ensures err { OnErr result (GrowsByFront (K.written out.old) (K.written out.new)
        (answer_head status Json ++ object_text object.now)) }
    ensures cause { HasCause (K.write_faults out.old) (K.write_faults out.new) result }
    ensures left { K.left out.new ≡ K.left out.old }
    ensures reads { K.read_faults out.new ≡ K.read_faults out.old }
{
    let mut text = ArrayString::<256>::new();
    text.push_str(head(status, Content::Json).as_str());
    text.push_str(text_of(object).as_str());
    write_all(out, text.as_str().as_bytes())
}

/// Answers with the profile's table.
pub fn answer_table<K: Sink>(profile: &Profile, out: &mut K) -> Result<(), Failed>
    ensures ok { OnOk result (Grows (K.written out.old) (K.written out.new)
        (answer_head Done Json ++ table_text profile.now.format)) }
    ensures err { OnErr result (GrowsByFront (K.written out.old) (K.written out.new)
        (answer_head Done Json ++ table_text profile.now.format)) }
    ensures cause { HasCause (K.write_faults out.old) (K.write_faults out.new) result }
    ensures left { K.left out.new ≡ K.left out.old }
    ensures reads { K.read_faults out.new ≡ K.read_faults out.old }
{
    let mut text = ArrayString::<800>::new();
    text.push_str(head(Status::Done, Content::Json).as_str());
    text.push_str(table(profile).as_str());
    write_all(out, text.as_str().as_bytes())
}

/// Answers with a body of these bytes.
pub fn answer_bytes<K: Sink>(content: Content, body: &[u8], out: &mut K) -> Result<(), Failed>
    ensures ok { OnOk result (Grows (K.written out.old) (K.written out.new)
        (answer_head Done content ++ body.now)) }
    ensures err { OnErr result (GrowsByFront (K.written out.old) (K.written out.new)
        (answer_head Done content ++ body.now)) }
    ensures cause { HasCause (K.write_faults out.old) (K.write_faults out.new) result }
    ensures left { K.left out.new ≡ K.left out.old }
    ensures reads { K.read_faults out.new ≡ K.read_faults out.old }
{
    let text = head(Status::Done, content);
    write_all(out, text.as_str().as_bytes())?;
    write_all(out, body)
}
