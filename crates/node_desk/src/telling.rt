//! Telling the lines of a block to a panel by itself.

ghost use Rattle.node_desk.specs.Lines.{MayTellLines, MayTellStep, TellsLines, TellsStep};
ghost use Rattle.std.specs.Prelude.{◌≡◌};

use desk_ticks::reader_behind_tick;
use panel_node::Node;
use record_lines::{Line, Step};

/// Tells the lines behind the first to the tick that has begun.
pub(crate) fn tell_lines(rest: &[u8], node: &mut Node)
    requires may { MayTellLines rest.now node.old }
    ensures tells { TellsLines rest.now node.old node.new }
    ensures digest { node.new.digest ≡ node.old.digest }
{
    let mut reader = reader_behind_tick(node.site());
    let mut left = rest;
    while !left.is_empty() {
        let fed = reader.feed(node.site(), left);
        tell_step(fed.step, node);
        left = left.split_at(fed.used).1;
    }
}

// Tells an event.
fn tell_step(step: Step, node: &mut Node)
    requires may { MayTellStep step node.old }
    ensures tells { TellsStep step node.old node.new }
    ensures digest { node.new.digest ≡ node.old.digest }
{
    match step {
        Step::Line(Line::Event(event)) => node.event(&event),
        Step::Line(Line::Tick(_)) | Step::Line(Line::Order(_)) | Step::Line(Line::End) => {}
        Step::Refused(_) | Step::Need => {}
    }
}
