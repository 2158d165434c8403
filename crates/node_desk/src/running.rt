//! Running the tick of a block.

ghost use Rattle.std.specs.Prelude.{◌≡◌, ◌-◌, ◌^◌, ◌<◌};
ghost use Rattle.node_desk.specs.Running.{KeepsOn, MakesTicks, MayMakeTurns, MayRunBlock, RunsBlock};
ghost use Rattle.retained_journal.specs.Images.{Stands as StandsOn};
ghost use Rattle.site_run.specs.Outside.{disks_of};

use crate::node_run::NodeRun;
use crate::telling::tell_lines;
use desk_ticks::behind_first_line;
use panel_edges::Disk;
use site_run::with_failure;
use tick_units::Tick;

impl NodeRun {
    // Runs the next tick, whose block is accepted, and writes nothing.
    pub(crate) fn run_block<D: Disk>(&mut self, tick: u64, block: &[u8], disk: &mut D)
        requires may { MayRunBlock tick block.now self.old }
        requires stands { StandsOn D.honest D.images disk.old self.old.journal }
        ensures runs { RunsBlock tick block.now
            (disks_of D.honest D.images D.moment D.left_since disk.old disk.new)
            self.old self.new }
        ensures disk { KeepsOn D.honest D.images D.faults disk.old disk.new self.old self.new }
        ensures digest { self.new.node.digest ≡ self.old.node.digest }
    {
        self.node.begin(Tick(tick));
        tell_lines(behind_first_line(block), &mut self.node);
        self.make_turns(disk);
    }

    // Makes the turns of the tick that has begun, and looks at what the panel shows then.
    fn make_turns<D: Disk>(&mut self, disk: &mut D)
        requires may { MayMakeTurns self.old }
        requires stands { StandsOn D.honest D.images disk.old self.old.journal }
        ensures makes { MakesTicks
            (disks_of D.honest D.images D.moment D.left_since disk.old disk.new)
            self.old self.new }
        ensures disk { KeepsOn D.honest D.images D.faults disk.old disk.new self.old self.new }
        ensures digest { self.new.node.digest ≡ self.old.node.digest }
    {
        let store = self.node.turns(&mut self.journal, disk);
        self.store_failures = with_failure(self.store_failures, store);
        self.before = self.shown;
        self.shown = self.node.face();
    }
}
