//! How much lies between the tasks of a panel whose every address is asked.

use crate::telling::{file_of, site_of};
use anyhow::Result;
use driven_panel::{opened, order_of, run_events, taken};
use std::fs;
use trial_cases::{Case, Lines};

/// What Decide and Hold of panel 1 have taken after each tick, whose turns are in the canonical or in the reversed
/// order. The site is that of a drill, or one of a file.
pub(crate) fn say_taken(rt: &HostRuntime, case: &Case) -> Result<String> {
    let alloc = rt.alloc();
    let text = if case.subject == "drill" {
        file_of(alloc)?
    } else {
        fs::read(rt, case.subject)?
    };
    let site = site_of(alloc, text.as_slice())?;
    let panels = site.panels;
    let mut own = opened(alloc, site, Vec::new(alloc))?;
    let mut lines = Lines::new(alloc);
    for word in case.rest.split(", ") {
        let order = order_of(alloc, panels, word == "reversed")?;
        run_events(&mut own, panels, &[], &order)?;
        let (decided, held) = taken(&own, panels);
        lines.say("    ");
        lines.say(word);
        lines.count(": Decide ", decided);
        lines.count(", Hold ", held);
        lines.say("\n");
    }
    lines.done()
}
