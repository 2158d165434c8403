//! What is replied to what came, and what that does.

ghost use Rattle.std.specs.Prelude.{◌≡◌};
ghost use Rattle.node_desk.specs.Replies.{MayReply, MayReplyToBlock, RepliesTo, RepliesToBlock};
ghost use Rattle.node_desk.specs.Running.{KeepsOn};
ghost use Rattle.retained_journal.specs.Images.{Stands as StandsOn};
ghost use Rattle.site_run.specs.Outside.{disks_of};

use crate::node_run::NodeRun;
use crate::reply::Reply;
use desk_runs::{expected, is_next};
use node_inputs::{NodeInput, read_input};
use panel_edges::Disk;

impl NodeRun {
    // Does what these bytes bring about. Nothing is written yet.
    pub(crate) fn reply_to<D: Disk>(&mut self, bytes: &[u8], disk: &mut D) -> Reply
        requires may { MayReply self.old }
        requires stands { StandsOn D.honest D.images disk.old self.old.journal }
        ensures replies { RepliesTo bytes.now
            (disks_of D.honest D.images D.moment D.left_since disk.old disk.new)
            self.old result self.new }
        ensures disk { KeepsOn D.honest D.images D.faults disk.old disk.new self.old self.new }
        ensures digest { self.new.node.digest ≡ self.old.node.digest }
    {
        match read_input(self.node.site(), self.node.digest(), self.panel, bytes) {
            NodeInput::Nothing => Reply::Frame,
            NodeInput::Framed(frame) => {
                self.node.receive(&frame);
                Reply::Frame
            }
            NodeInput::BadFrame(refusal) => Reply::BadFrame(refusal),
            NodeInput::Block(found) => self.reply_to_block(found, bytes, disk),
            NodeInput::BadBlock(refusal) => Reply::BadBlock(refusal),
            NodeInput::TooLong => Reply::TooLong,
        }
    }

    // Runs the tick of an accepted block, where it is the next one.
    fn reply_to_block<D: Disk>(&mut self, found: u64, block: &[u8], disk: &mut D) -> Reply
        requires may { MayReplyToBlock found block.now self.old }
        requires stands { StandsOn D.honest D.images disk.old self.old.journal }
        ensures replies { RepliesToBlock found block.now
            (disks_of D.honest D.images D.moment D.left_since disk.old disk.new)
            self.old result self.new }
        ensures disk { KeepsOn D.honest D.images D.faults disk.old disk.new self.old self.new }
        ensures digest { self.new.node.digest ≡ self.old.node.digest }
    {
        let ticks = self.ticks();
        if is_next(found, ticks) {
            self.run_block(found, block, disk);
            Reply::Tick
        } else {
            Reply::OtherTick {
                expected: expected(ticks),
                found,
            }
        }
    }
}
