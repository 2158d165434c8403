use coincidence::Finding;
use site_types::{Answer, Site};
use std::alloc::{AllocError, Global};
use trial_base::{DoneAt, Judged, PlainRules};

/// What the plain rules make of the answers of panel 1, by the whole lists, and whether that is what was found.
pub(crate) fn judge_plainly(
    alloc: Global,
    site: &Site,
    done: &[DoneAt],
    answers: &[Answer],
    findings: &[Finding],
) -> Result<(Vec<Judged>, bool), AllocError> {
    let plain = PlainRules {
        site,
        panel: 1,
        done,
    };
    let judged = plain.judge_all(alloc, answers)?;
    let mut alike = judged.len() == findings.len();
    for (plain, finding) in judged.iter().zip(findings.iter()) {
        alike = alike && plain.finding == *finding;
    }
    Ok((judged, alike))
}
