ghost use Rattle.std.specs.Prelude.{◌≡◌, ◌≤◌, IfOk};
ghost use Rattle.panel_parts.specs.Stands.{HasPlan};
ghost use Rattle.panel_drill.specs.Drills.{drill_line as line_text};
ghost use Rattle.panel_drill.specs.Running.{MayRun, RunsOn, most_ticks};
ghost use Rattle.site_types.specs.Valid.{IsValid};

use crate::counting::summary_of;
use crate::line::summary_line;
use crate::running::Running;
use arrayvec::ArrayString;
use cause_effect::Plan;
use site_types::Site;
use std::alloc::Global;
use tick_units::{NoMemory, Tick};

/// The most ticks of a drill.
pub const MOST_TICKS: u64 = 100_000;

/// Runs a site with the plan of its markers and the digest of its file over the record that a seed draws, and gives
/// the line of the drill. All memory is taken before the first tick.
pub fn drill(
    alloc: Global,
    site: Site,
    plan: Plan,
    digest: [u8; 32],
    seed: u64,
    ticks: u64,
) -> Result<ArrayString<192>, NoMemory>
    requires valid { IsValid site }
    requires plan { HasPlan site plan }
    requires few { ticks ≤ most_ticks }
    ensures { IfOk result (λ line. line.bytes ≡ line_text site seed ticks) }
{
    let mut running = Running::open(alloc, site, plan, digest, seed)?;
    run(&mut running, ticks);
    Ok(summary_line(seed, ticks, &summary_of(&running.system)))
}

// So many ticks.
fn run(running: &mut Running, ticks: u64)
    requires few { ticks ≤ most_ticks }
    requires may { MayRun running.old }
    ensures { RunsOn ticks running.old running.new }
{
    for before in 0..ticks {
        running.run_tick(Tick(before + 1));
    }
}
