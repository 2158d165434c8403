ghost use Rattle.std.specs.Prelude.{◌≡◌, [], ◌∷◌, IfOk, List, OnOk, ℕ};
ghost use Rattle.site_types.specs.declared.retained.Retained.{Retained as RetainedOf};
ghost use Rattle.site_types.specs.Done.{Done as DoneOf};
ghost use Rattle.site_types.specs.Valid.{IsValid};
ghost use Rattle.panel_rules.specs.Moments.{Moment as MomentOf, tick_of};
ghost use Rattle.plain_words.specs.Enterings.{AllAsk, AllEnter, AllEnterBy};
ghost use Rattle.plain_history.specs.Histories.{moment_of};

use crate::entering::Entering;
use plain_history::{Moment, Settings};
use site_types::{Answer, Site};
use std::alloc::Global;
use tick_units::{NoMemory, Tick};

/// Takes one moment more for each of some panels, in the tick that began last before it, where some operations were
/// done.
pub fn step_all(
    panels: &mut [Entering],
    alloc: Global,
    settings: &Settings,
    tick: Tick,
    moment: &Moment,
) -> Result<(), NoMemory>
    requires { AllAsk settings.now.site.now panels.old }
    ensures { OnOk result
        (AllEnterBy settings.now tick.0 (moment_of moment.now) panels.old
        panels.new) }
{
    for entering in panels.iter_mut() {
        entering.step(alloc, settings, tick, moment)?;
    }
    Ok(())
}

/// The panels of a site, of which nothing befell.
pub fn all_new(alloc: Global, site: &Site) -> Result<Vec<Entering>, NoMemory>
    requires { IsValid site.now }
    ensures { IfOk result (λ panels. (kept : RetainedOf) (done : List DoneOf)
        → AreEntering site.now kept done [] panels.items) }
{
    let mut panels = Vec::new(alloc);
    for place in 0..site.panels {
        panels.push(Entering::new(alloc, site, place + 1)?)?;
    }
    Ok(panels)
}

ghost use Rattle.plain_words.specs.Enterings.{AreEntering};
ghost use Rattle.std.specs.Prelude.{◌+◌};
ghost use Rattle.panel_rules.specs.Zones.{held_answers};
ghost use Rattle.site_types.specs.declared.site.Site.{Site as SiteOf};
ghost use Rattle.plain_words.specs.Enterings.{IsAmong};

/// The answers whose findings the Hold of a panel has taken, of panels from 1 on; none where there is no such panel.
pub fn held_at(panels: &[Entering], panel: u8) -> &[Answer]
    ensures { (site : SiteOf) (kept : RetainedOf) (done : List DoneOf) (history : List MomentOf)
        → AllEnter site kept done history 1 panels.now → IsAmong panels.now panel
        → result.now ≡ held_answers site panel history }
{
    match panels.get(panel.saturating_sub(1) as usize) {
        None => &[],
        Some(entering) => entering.held(),
    }
}
