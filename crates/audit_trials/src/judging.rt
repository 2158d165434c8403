//! Texts that are judged.

ghost use Rattle.site_types.specs.Valid.{IsValid};

use crate::changing::changed;
use crate::kind::Kind;
use crate::verdict_words::say_verdict;
use anyhow::{Result, bail};
use cause_effect::compile;
use panel_audit::audit;
use site_types::Site;
use std::alloc::Global;
use std::fs;
use tick_units::NoMemory;
use trial_cases::{Case, Lines, Words, site_at};

/// The verdict on the record and the text that a case names.
pub(crate) fn judge_case(rt: &HostRuntime, kind: Kind, case: &Case) -> Result<String> {
    let words = Words::of(case.subject);
    match kind {
        Kind::Audit => judge_file(rt, words, case.rest),
        Kind::Judge => judge_bars(rt, words, case.rest),
    }
}

// The words name a site, a record and a text.
fn judge_file(rt: &HostRuntime, mut words: Words, changes: &str) -> Result<String> {
    let site = site_at(rt, words.next())?;
    let record = fs::read_to_string(rt, words.next())?;
    let text = fs::read_to_string(rt, words.next())?;
    let text = changed(rt.alloc(), text.as_str(), changes)?;
    judge(rt.alloc(), &site, record.as_str(), text.as_str())
}

// The words name a site and a record; the text has bars for line ends.
fn judge_bars(rt: &HostRuntime, mut words: Words, bars: &str) -> Result<String> {
    let site = site_at(rt, words.next())?;
    let record = fs::read_to_string(rt, words.next())?;
    let text = bars.replace(rt.alloc(), "|", "\n")?;
    judge(rt.alloc(), &site, record.as_str(), text.as_str())
}

// The verdict in words. That memory ran out is none.
fn judge(alloc: Global, site: &Site, record: &str, text: &str) -> Result<String>
    requires { IsValid site.now }
{
    let Ok(plan) = compile(alloc, site) else {
        bail!("the site has a cycle, or there is no memory");
    };
    let mut lines = Lines::new(alloc);
    match audit(alloc, site, &plan, record.as_bytes(), text.as_bytes()) {
        Ok(verdict) => say_verdict(&mut lines, verdict),
        Err(NoMemory) => bail!("no memory"),
    }
    lines.say("\n");
    lines.done()
}
