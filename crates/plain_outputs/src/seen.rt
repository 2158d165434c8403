ghost use Rattle.std.specs.Prelude.{◌≡◌, ℕ, List};
ghost use Rattle.site_types.specs.Valid.{IsValid};
ghost use Rattle.site_types.specs.declared.site.Site.{Site as SiteOf};
ghost use Rattle.panel_rules.specs.Markers.{Facts as FactsOf};
ghost use Rattle.panel_rules.specs.Moments.{Moment as MomentOf, tick_of};
ghost use Rattle.plain_outputs.specs.Drives.{AreSeen, is_beginning as is_beginning_of, is_effect as is_effect_of};
ghost use Rattle.plain_history.specs.Histories.{moment_of};
ghost use Rattle.plain_outputs.specs.Outputs.{IsSeenAt};

use crate::solved::{by_hand, solved};
use marker_table::{Facts, Values};
use plain_history::Moment;
use site_types::Site;
use tick_units::{Task, Tick};

/// What is kept of a moment.
#[derive(Clone, Copy)]
pub struct Seen {
    pub moment: Moment,
    /// The tick that had begun before it, else 0.
    pub tick: Tick,
    /// The zones that were released for a turn of Effect, by panel, bit `number - 1`.
    pub released: [u32; 8],
    /// The markers that a turn of Effect found true.
    pub values: Values,
    /// The markers that it found true by hand.
    pub by_hand: Values,
}

impl Seen {
    /// What is kept of a moment, with the tick that had begun before it. Of a turn of Effect the facts are
    /// those of that turn.
    pub fn of(site: &Site, moment: &Moment, tick: Tick, facts: &Facts) -> Seen
        requires { IsValid site.now }
        ensures { IsSeenAt site.now (moment_of moment.now) tick.0 facts.now result }
    {
        if is_effect(moment) {
            Seen {
                moment: *moment,
                tick,
                released: facts.zones,
                values: solved(site, facts),
                by_hand: solved(site, &by_hand(facts)),
            }
        } else {
            Seen {
                moment: *moment,
                tick,
                released: [0; 8],
                values: Values::none(),
                by_hand: Values::none(),
            }
        }
    }
}

fn is_effect(moment: &Moment) -> bool
    ensures { result ≡ is_effect_of (moment_of moment.now) }
{
    matches!(
        *moment,
        Moment::Turned {
            task: Task::Effect,
            ..
        }
    )
}

/// How many ticks have begun, at most as many as moments.
pub(crate) fn ticks(seen: &[Seen]) -> u64
    ensures { (site : SiteOf) (facts : ℕ → List MomentOf → FactsOf) (history : List MomentOf)
        → AreSeen site facts seen.now history → result ≡ tick_of history }
{
    let most = seen.len() as u64;
    match seen {
        [] => 0,
        [.., last] => {
            if is_beginning(&last.moment) && last.tick.0 < most {
                last.tick.0 + 1
            } else {
                last.tick.0
            }
        }
    }
}

fn is_beginning(moment: &Moment) -> bool
    ensures { result ≡ is_beginning_of (moment_of moment.now) }
{
    matches!(*moment, Moment::Began)
}
