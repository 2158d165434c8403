//! Trials over drawn sites: the system and the plain program of the rules over records that are drawn for drawn sites,
//! and how often what the clauses of `System::face` ask for held in them.
//!
//! `sites 60 ticks, one in 6: 20 from seed 1` draws 20 sites, a record of 60 ticks for each in which something may
//! befall in one tick of six, orders and failing calls of the disk, and compares the whole face of each panel, the
//! answers and the failed turns of Keep, tick by tick. `history SITE: tick 1, point d1 gone, tick 201` plays a written
//! history at a site file. Behind each of the two stands whether the plain program tells the same. What held in all of
//! them is counted, and `premises` prints the counts so far. The head of trial_cases says how a list of cases is
//! written.
#![tactic(auto)]

mod cases;
mod drawn_markers;
mod drawn_site;

use anyhow::{Result, bail};
use cases::{try_history, try_sites};
use face_premises::Tally;
use trial_cases::{Case, Lines, is_heading};

/// Prints a list of cases, and behind each what is answered.
pub fn answer_list(rt: &HostRuntime, list: &str) -> Result<()> {
    let mut tally = Tally::new(rt.alloc())?;
    for line in list.lines() {
        println!(rt; "{line}")?;
        if is_heading(line) {
            continue;
        }
        let Some(answer) = answer(rt, &Case::read(line), &mut tally)? else {
            bail!("no such case: {line}");
        };
        rt.print(answer)?;
    }
    Ok(())
}

// What a case answers; none where it is of no kind.
fn answer(rt: &HostRuntime, case: &Case, tally: &mut Tally) -> Result<Option<String>> {
    Ok(match case.kind {
        "sites" => Some(try_sites(rt, case, tally)?),
        "history" => Some(try_history(rt, case, tally)?),
        "premises" => Some(say_premises(rt, tally)?),
        _ => None,
    })
}

// How often what each clause asks for held so far.
fn say_premises(rt: &HostRuntime, tally: &Tally) -> Result<String> {
    let mut lines = Lines::new(rt.alloc());
    tally.say_all(&mut lines);
    lines.done()
}
