//! What is replied to a request, and what it does.

ghost use Rattle.std.specs.Prelude.{◌≡◌, ◌≤◌, List};
ghost use Rattle.desk_register.specs.Replies.{sides_of};
ghost use Rattle.panel_desk.specs.Acting.{MayReply, RepliesBy, RepliesToBlock};
ghost use Rattle.panel_desk.specs.Replies.{other_tick as other_tick_of, refused_line as refused_line_of};
ghost use Rattle.retained_journal.specs.Images.{Stands as StandsOn};
ghost use Rattle.service_register.specs.Points.{PointRow};
ghost use Rattle.site_run.specs.Disks.{KeepsOn};
ghost use Rattle.site_run.specs.Outside.{disks_of};

use crate::reply::Reply;
use desk_answers::Object;
use desk_register::{Reply as RegisterReply, reply_to_stop, reply_to_untested, reply_to_visit};
use desk_requests::{Route, Status};
use desk_runs::{expected, is_next, run_block};
use desk_ticks::{BlockRefusal, tick_of_block};
use panel_edges::Disk;
use service_keepers::Keeper;
use service_register::Register;
use site_run::Run;
use std::alloc::Global;

/// Does what a request asks for. Nothing is written yet.
pub fn reply_to<D: Disk, R: Keeper>(
    alloc: Global,
    route: Route,
    body: &[u8],
    run: &mut Run,
    register: &Register,
    disk: &mut D,
    keeper: &mut R,
) -> Reply
    requires may { MayReply route body.now register.now run.old }
    requires stands { StandsOn D.honest D.images disk.old run.old.journal }
    ensures replies { RepliesBy route body.now (sides_of R.tables R.faults keeper.old keeper.new)
        (disks_of D.honest D.images D.moment D.left_since disk.old disk.new) result
        run.old run.new }
    ensures disk { KeepsOn D.honest D.images D.faults disk.old disk.new run.old run.new }
    ensures later { R.faults keeper.old ≤ R.faults keeper.new }
{
    match route {
        Route::Face(panel) => Reply::Face(panel),
        Route::Table => Reply::Profile,
        Route::Ticks => reply_to_block(body, run, disk),
        Route::Visits => Reply::Other(reply_to_visit(alloc, run.site(), body, register, keeper)),
        Route::Untested(day) => Reply::Other(reply_to_untested(alloc, day, register, keeper)),
        Route::Stop => Reply::Other(reply_to_stop(alloc, run.site(), body)),
    }
}

// Runs the tick of a block, where no line of it is refused and it is the next one.
fn reply_to_block<D: Disk>(body: &[u8], run: &mut Run, disk: &mut D) -> Reply
    requires may { (points : List PointRow) × MayReply Route.Ticks body.now points run.old }
    requires stands { StandsOn D.honest D.images disk.old run.old.journal }
    ensures replies { RepliesToBlock body.now
        (disks_of D.honest D.images D.moment D.left_since disk.old disk.new) result
        run.old run.new }
    ensures disk { KeepsOn D.honest D.images D.faults disk.old disk.new run.old run.new }
{
    match tick_of_block(run.site(), body) {
        Err(refusal) => refused_line(refusal),
        Ok(found) => {
            if is_next(found, run.ticks()) {
                run_block(found, body, run, disk);
                Reply::Tick
            } else {
                other_tick(run.ticks(), found)
            }
        }
    }
}

// The reply to a block of which a line is refused.
fn refused_line(refusal: BlockRefusal) -> Reply
    ensures { result ≡ refused_line_of refusal }
{
    Reply::Other(RegisterReply::Object {
        status: Status::BadRequest,
        object: Object::RefusedLine {
            line: refusal.line,
            refusal: refusal.number,
        },
    })
}

// The reply to the block of another tick, behind so many.
fn other_tick(ticks: u64, found: u64) -> Reply
    ensures { result ≡ other_tick_of ticks found }
{
    Reply::Other(RegisterReply::Object {
        status: Status::Conflict,
        object: Object::OtherTick {
            expected: expected(ticks),
            found,
        },
    })
}
