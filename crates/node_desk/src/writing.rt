//! Writing what is replied.

ghost use Rattle.std.specs.Prelude.{◌≡◌, OnErr, OnOk};
ghost use Rattle.node_desk.specs.Runs.{RunsSome};
ghost use Rattle.node_desk.specs.Serving.{BlamesWriting, SendsReply, TellsFrame, TellsReply, TellsTick};
ghost use Rattle.panel_edges.specs.Contents.{Grows, GrowsByFront};
ghost use Rattle.panel_edges.specs.Faults.{HasCause};

use crate::node_run::NodeRun;
use crate::reply::Reply;
use arrayvec::ArrayVec;
use node_answers::{
    Exchanged, TOO_LONG_LINE, other_tick_line, refused_block_line, refused_frame_line,
};
use panel_edges::{Failed, Sink, write_all};
use panel_frames::print_frame;
use site_run::{TickFaces, TickPage};
use std::slice;

impl NodeRun {
    // Writes a reply, and tells what came of the connection.
    pub(crate) fn send<K: Sink>(&mut self, reply: Reply, out: &mut K) -> Exchanged
        requires { RunsSome self.old }
        ensures sends { SendsReply reply (K.written out.old) (K.written out.new) self.old result }
        ensures rest { self.new ≡ record self.old { page = self.new.page } }
        ensures faults { BlamesWriting (K.write_faults out.old) (K.write_faults out.new) result }
        ensures left { K.left out.new ≡ K.left out.old }
        ensures reads { K.read_faults out.new ≡ K.read_faults out.old }
    {
        match self.write_reply(reply, out) {
            Ok(()) => Exchanged::Answered,
            Err(Failed) => Exchanged::WriteFault,
        }
    }

    fn write_reply<K: Sink>(&mut self, reply: Reply, out: &mut K) -> Result<(), Failed>
        requires { RunsSome self.old }
        ensures ok { OnOk result
            (TellsReply (Grows (K.written out.old) (K.written out.new)) reply self.old) }
        ensures err { OnErr result
            (TellsReply (GrowsByFront (K.written out.old) (K.written out.new)) reply self.old) }
        ensures rest { self.new ≡ record self.old { page = self.new.page } }
        ensures cause { HasCause (K.write_faults out.old) (K.write_faults out.new) result }
        ensures left { K.left out.new ≡ K.left out.old }
        ensures reads { K.read_faults out.new ≡ K.read_faults out.old }
    {
        match reply {
            Reply::Frame => self.write_frame(out),
            Reply::BadFrame(refusal) => {
                write_all(out, refused_frame_line(refusal).as_str().as_bytes())
            }
            Reply::Tick => self.write_tick(out),
            Reply::OtherTick { expected, found } => {
                write_all(out, other_tick_line(expected, found).as_str().as_bytes())
            }
            Reply::BadBlock(refusal) => {
                write_all(out, refused_block_line(refusal).as_str().as_bytes())
            }
            Reply::TooLong => write_all(out, TOO_LONG_LINE.as_bytes()),
        }
    }

    // Writes the frame of the panel.
    fn write_frame<K: Sink>(&self, out: &mut K) -> Result<(), Failed>
        ensures ok { OnOk result
            (TellsFrame (Grows (K.written out.old) (K.written out.new)) self.now) }
        ensures err { OnErr result
            (TellsFrame (GrowsByFront (K.written out.old) (K.written out.new)) self.now) }
        ensures cause { HasCause (K.write_faults out.old) (K.write_faults out.new) result }
        ensures left { K.left out.new ≡ K.left out.old }
        ensures reads { K.read_faults out.new ≡ K.read_faults out.old }
    {
        let mut bytes = ArrayVec::new();
        print_frame(self.node.digest(), &self.node.frame(), &mut bytes);
        write_all(out, bytes.as_slice())
    }

    // Writes the part in the text of the tick that was run last; where there is nothing to tell nothing is written.
    fn write_tick<K: Sink>(&mut self, out: &mut K) -> Result<(), Failed>
        requires { RunsSome self.old }
        ensures ok { OnOk result
            (TellsTick (Grows (K.written out.old) (K.written out.new)) self.old) }
        ensures err { OnErr result
            (TellsTick (GrowsByFront (K.written out.old) (K.written out.new)) self.old) }
        ensures rest { self.new ≡ record self.old { page = self.new.page } }
        ensures cause { HasCause (K.write_faults out.old) (K.write_faults out.new) result }
        ensures left { K.left out.new ≡ K.left out.old }
        ensures reads { K.read_faults out.new ≡ K.read_faults out.old }
    {
        let page = TickPage {
            tick: self.node.now().0,
            faces: TickFaces {
                site: self.node.site(),
                starts: &self.starts,
                alike: &[false; 8],
                before: slice::from_ref(&self.before),
                after: slice::from_ref(&self.shown),
            },
            answers: self.node.answers(),
        };
        page.write(&mut self.page, out)
    }
}
