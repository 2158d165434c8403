//! The latest turns of tasks.

ghost use Rattle.std.specs.Prelude.{◌≡◌, ◌<◌, ℕ, List, length, option_map, IfSome};
ghost use Rattle.site_types.specs.declared.site.Site.{Site as SiteOf};
ghost use Rattle.panel_rules.specs.Markers.{Facts as FactsOf};
ghost use Rattle.panel_rules.specs.Moments.{Moment as MomentOf};
ghost use Rattle.plain_outputs.specs.Drives.{AreSeen, IsLatest, is_turn_of};
ghost use Rattle.plain_history.specs.Histories.{moment_of};

use crate::seen::Seen;
use plain_history::Moment;
use tick_units::Task;

/// Whether a moment is a turn of a panel's task.
pub(crate) fn is_turn(moment: &Moment, panel: u8, task: Task) -> bool
    ensures { result ≡ is_turn_of panel task (moment_of moment.now) }
{
    match *moment {
        Moment::Turned {
            panel: other,
            task: turned,
        } => turned == task && other == panel,
        _ => false,
    }
}

/// How many moments came before the latest turn of a panel's task.
pub(crate) fn before_latest(panel: u8, task: Task, seen: &[Seen]) -> Option<usize>
    ensures place { IfSome result (λ place. place < length seen.now) }
    ensures turn { (site : SiteOf) (facts : ℕ → List MomentOf → FactsOf) (history : List MomentOf)
        → AreSeen site facts seen.now history
        → IsLatest site facts panel task seen.now history result }
{
    match seen {
        [] => None,
        [before @ .., last] => {
            if is_turn(&last.moment, panel, task) {
                Some(before.len())
            } else {
                before_latest(panel, task, before)
            }
        }
    }
}
