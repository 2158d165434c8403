//! Trials of panels that run by themselves, over forms in memory: against one system of the same panels, and with a
//! carrier between them that does to frames whatever it likes.
//!
//! `sites 8 panels, 60 ticks, one in 6: 4 from seed 1` draws 4 sites of 8 panels, a record of 60 ticks for each in
//! which something may befall in one tick of six, and plays it at one system and at 8 panels by themselves. These get
//! at each tick the frames that a `Ring` beside them would hand them, which must be those that the panels hand out
//! themselves. Frames come before the turns of the panel, which go by them as by frames that come with the turn of
//! Link: links are up, so Hold has nothing to tell of them. The whole face of each panel and the answers are compared,
//! tick by tick. A panel by itself numbers its operations from 1, so the numbers of its answers are those of the
//! operations in the record. The records have neither orders nor reports on links.
//!
//! `carrier 8 panels, 60 ticks, one in 6: 4 from seed 1` plays such records with a carrier that loses, doubles and
//! delays the frames that the panels hand out, as is drawn, so that some overtake others, and brings some to panels
//! that aren't next to their sender, where they must be refused. After each tick the zones that a panel shows of
//! another one must be those of the newest word that came to it, none where none came; and each word that comes must
//! be one that its own panel handed out when it showed just those zones.
//!
//! What is counted stands behind, so that it can be seen that there was something to compare. The head of trial_cases
//! says how a list of cases is written.
#![tactic(auto)]

mod answers;
mod carried;
mod carrier;
mod carrying;
mod cases;
mod drawn;
mod drawn_site;
mod neighbours;
mod notes;
mod played;
mod posted;
mod ring_beside;
mod words;
mod zones;

use anyhow::{Result, bail};
use cases::{try_carrier, try_sites};
use trial_cases::{Case, is_heading};

/// Prints a list of cases, and behind each what is answered.
pub fn answer_list(rt: &HostRuntime, list: &str) -> Result<()> {
    for line in list.lines() {
        println!(rt; "{line}")?;
        if is_heading(line) {
            continue;
        }
        let Some(answer) = answer(rt, &Case::read(line))? else {
            bail!("no such case: {line}");
        };
        rt.print(answer)?;
    }
    Ok(())
}

// What a case answers; none where it is of no kind.
fn answer(rt: &HostRuntime, case: &Case) -> Result<Option<String>> {
    Ok(match case.kind {
        "sites" => Some(try_sites(rt.alloc(), case)?),
        "carrier" => Some(try_carrier(rt.alloc(), case)?),
        _ => None,
    })
}
