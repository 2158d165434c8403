//! Writing what is replied.

ghost use Rattle.std.specs.Prelude.{◌≡◌, OnErr, OnOk};
ghost use Rattle.panel_desk.specs.Acting.{BlamesWriting, MayTellReply, SaysServed, SendsReply, TellsReply};
ghost use Rattle.panel_desk.specs.Replies.{is_stop, register_bytes, status_of};
ghost use Rattle.panel_edges.specs.Contents.{Grows, GrowsByFront};
ghost use Rattle.panel_edges.specs.Faults.{HasCause};

use crate::reply::Reply;
use crate::served::Served;
use desk_answers::{Content, Object, answer_bytes, answer_object, answer_table, head};
use desk_faces::answer_face;
use desk_register::Reply as RegisterReply;
use desk_requests::Status;
use panel_edges::{Failed, Sink, write_all};
use site_run::Run;
use site_types::Profile;

/// Writes a reply, and tells what came of the connection.
pub fn send<K: Sink>(reply: &Reply, run: &mut Run, out: &mut K) -> Served
    requires may { MayTellReply reply.now run.old }
    ensures sends { SendsReply reply.now (K.written out.old) (K.written out.new) run.old result }
    ensures rest { run.new ≡ record run.old { page = run.new.page } }
    ensures faults { BlamesWriting (K.write_faults out.old) (K.write_faults out.new) result }
    ensures left { K.left out.new ≡ K.left out.old }
    ensures reads { K.read_faults out.new ≡ K.read_faults out.old }
{
    let written = write_reply(reply, run, out);
    served(reply, written)
}

// Writes a reply.
fn write_reply<K: Sink>(reply: &Reply, run: &mut Run, out: &mut K) -> Result<(), Failed>
    requires may { MayTellReply reply.now run.old }
    ensures ok { OnOk result
        (TellsReply (Grows (K.written out.old) (K.written out.new)) reply.now run.old) }
    ensures err { OnErr result
        (TellsReply (GrowsByFront (K.written out.old) (K.written out.new)) reply.now run.old) }
    ensures rest { run.new ≡ record run.old { page = run.new.page } }
    ensures cause { HasCause (K.write_faults out.old) (K.write_faults out.new) result }
    ensures left { K.left out.new ≡ K.left out.old }
    ensures reads { K.read_faults out.new ≡ K.read_faults out.old }
{
    match reply {
        Reply::Face(panel) => {
            let face = &run.shown()[*panel as usize - 1];
            answer_face(run.site(), face, run.ticks(), out)
        }
        Reply::Profile => answer_table(&Profile::of(run.site().format), out),
        Reply::Tick => {
            let text = head(Status::Done, Content::Text);
            write_all(out, text.as_str().as_bytes())?;
            run.write_tick(out)
        }
        Reply::Other(reply) => write_register_reply(reply, out),
    }
}

// Writes a reply that is an object or the table of the untested points.
fn write_register_reply<K: Sink>(reply: &RegisterReply, out: &mut K) -> Result<(), Failed>
    ensures ok { OnOk result
        (Grows (K.written out.old) (K.written out.new) (register_bytes reply.now)) }
    ensures err { OnErr result
        (GrowsByFront (K.written out.old) (K.written out.new) (register_bytes reply.now)) }
    ensures cause { HasCause (K.write_faults out.old) (K.write_faults out.new) result }
    ensures left { K.left out.new ≡ K.left out.old }
    ensures reads { K.read_faults out.new ≡ K.read_faults out.old }
{
    match reply {
        RegisterReply::Object { status, object } => answer_object(*status, object, out),
        RegisterReply::Table(bytes) => answer_bytes(Content::Table, bytes.as_slice(), out),
    }
}

// What came of a reply that was written so.
fn served(reply: &Reply, written: Result<(), Failed>) -> Served
    ensures { SaysServed reply.now written result }
{
    match written {
        Ok(()) if stops(reply) => Served::Stopped,
        Ok(()) => Served::Answered {
            status: status(reply).number(),
        },
        Err(_) => Served::WriteFault,
    }
}

fn status(reply: &Reply) -> Status
    ensures { result ≡ status_of reply.now }
{
    match reply {
        Reply::Face(_) | Reply::Profile | Reply::Tick => Status::Done,
        Reply::Other(reply) => reply.status_of(),
    }
}

// Whether a stop is granted.
fn stops(reply: &Reply) -> bool
    ensures { result ≡ is_stop reply.now }
{
    match reply {
        Reply::Other(RegisterReply::Object { object, .. }) => matches!(object, Object::Stopped),
        Reply::Other(RegisterReply::Table(_)) => false,
        Reply::Face(_) | Reply::Profile | Reply::Tick => false,
    }
}
