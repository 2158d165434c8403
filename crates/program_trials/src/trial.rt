use crate::called::{Called, call};
use crate::given::Given;
use crate::options::{edited, option, outside_of};
use crate::outside::{Outside, SOUND};
use crate::records::record_of;
use anyhow::Result;
use std::alloc::Global;
use std::fs;
use trial_cases::Case;

/// A case that was read: what its calls find, and what is said of the outside.
#[derive(Drop)]
pub(crate) struct Trial<'a> {
    words: Vec<String>,
    site: Option<Vec<u8>>,
    third: Option<Vec<u8>>,
    fourth: Option<Vec<u8>>,
    record: Vec<u8>,
    journal: Vec<u8>,
    target: Vec<u8>,
    pub(crate) outside: Outside,
    pub(crate) options: &'a str,
}

impl<'a> Trial<'a> {
    /// The trial of a case `KIND WORDS: RECORD; OPTIONS`, a call with these words.
    pub(crate) fn of_words(rt: &HostRuntime, case: &Case<'a>) -> Result<Trial<'a>> {
        let (record, options) = parts_of(case.rest);
        Trial::read(rt, case.subject, record, options)
    }

    /// The trial of a case `KIND SITE: RECORD | RECORD; OPTIONS`, the last of these runs. Each finds the journal that
    /// the one before left; those before the last may be of another site.
    pub(crate) fn of_runs(rt: &HostRuntime, case: &Case<'a>) -> Result<Trial<'a>> {
        let (records, options) = parts_of(case.rest);
        let (before, last) = records.rsplit_once(" | ").unwrap_or(("", records));
        let site = match option(options, "before-at") {
            "" => case.subject,
            other => other,
        };
        let words = format!(in rt.alloc(); "run {} journal", case.subject)?;
        let mut trial = Trial::read(rt, words.as_str(), last, options)?;
        trial.journal = edited(rt, journal_of(rt, site, before)?, options)?;
        Ok(trial)
    }

    /// The trial of a case `KIND OLD NEW: RECORD | RECORD; OPTIONS`, a move from the old site to the new one over the
    /// journal that runs of the old one over these records leave. `target N` has the file of the new journal hold so
    /// many bytes, `again` what the same move leaves there.
    pub(crate) fn of_moves(rt: &HostRuntime, case: &Case<'a>) -> Result<Trial<'a>> {
        let (records, options) = parts_of(case.rest);
        let old = match option(options, "before-at") {
            "" => case.subject.split(' ').next().unwrap_or(""),
            other => other,
        };
        let words = format!(in rt.alloc(); "move {} journal target", case.subject)?;
        let mut trial = Trial::read(rt, words.as_str(), "nothing", options)?;
        trial.journal = edited(rt, journal_of(rt, old, records)?, options)?;
        for part in options.split(", ") {
            if part == "again" {
                let Called { target, .. } = call(rt.alloc(), trial.given(), SOUND)?;
                trial.target = target.bytes;
            }
            if let Some(length) = part.strip_prefix("target ") {
                trial.target.resize(length.parse::<u16>()? as usize, 0)?;
            }
        }
        Ok(trial)
    }

    /// The trial of a case `KIND SITE FILE: OPTIONS`, an import. `file-length N` cuts the file or makes it longer with
    /// zeros.
    pub(crate) fn of_imports(rt: &HostRuntime, case: &Case<'a>) -> Result<Trial<'a>> {
        let words = format!(in rt.alloc(); "import {} register", case.subject)?;
        let mut trial = Trial::read(rt, words.as_str(), "nothing", case.rest)?;
        let length = option(case.rest, "file-length");
        if let (Some(file), false) = (&mut trial.third, length.is_empty()) {
            file.resize(length.parse::<u32>()? as usize, 0)?;
        }
        Ok(trial)
    }

    /// A run without a tick over a journal, of a site of this name whose file is at hand.
    pub(crate) fn of_opening(
        alloc: Global,
        name: &str,
        site: Option<&[u8]>,
        journal: &[u8],
    ) -> Result<Trial<'a>> {
        let mut words = Vec::new(alloc);
        words.push(String::from_str(alloc, "run")?)?;
        words.push(String::from_str(alloc, name)?)?;
        words.push(String::from_str(alloc, "journal")?)?;
        let site = match site {
            Some(bytes) => Some(Vec::from_slice(alloc, bytes)?),
            None => None,
        };
        Ok(Trial {
            words,
            site,
            third: None,
            fourth: None,
            record: Vec::from_slice(alloc, b"end\n")?,
            journal: Vec::from_slice(alloc, journal)?,
            target: Vec::new(alloc),
            outside: SOUND,
            options: "",
        })
    }

    // A call over no journal. The file that the second word names is on the shelf, where there is one, for a move, an
    // import or an audit that of the third, and for an audit that of the fourth.
    fn read(rt: &HostRuntime, words: &str, record: &str, options: &'a str) -> Result<Trial<'a>> {
        let mut all = Vec::new(rt.alloc());
        let mut site = None;
        let mut third = None;
        let mut fourth = None;
        let is_audit = words.starts_with("audit ");
        let has_third = is_audit || words.starts_with("move ") || words.starts_with("import ");
        for word in words.split(' ') {
            if word.is_empty() {
                continue;
            }
            if all.len() == 1 {
                site = fs::read(rt, word).ok();
            }
            if all.len() == 2 && has_third {
                third = fs::read(rt, word).ok();
            }
            if all.len() == 3 && is_audit {
                fourth = fs::read(rt, word).ok();
            }
            all.push(String::from_str(rt.alloc(), word)?)?;
        }
        Ok(Trial {
            words: all,
            site,
            third,
            fourth,
            record: record_of(rt, record)?,
            journal: Vec::new(rt.alloc()),
            target: Vec::new(rt.alloc()),
            outside: outside_of(options)?,
            options,
        })
    }

    pub(crate) fn given(&self) -> Given<'_> {
        Given {
            words: self.words.as_slice(),
            site: bytes_of(&self.site),
            third: bytes_of(&self.third),
            fourth: bytes_of(&self.fourth),
            record: self.record.as_slice(),
            journal: self.journal.as_slice(),
            target: self.target.as_slice(),
        }
    }
}

fn bytes_of(file: &Option<Vec<u8>>) -> Option<&[u8]> {
    match file {
        Some(bytes) => Some(bytes.as_slice()),
        None => None,
    }
}

// The record of a case and its options.
fn parts_of(rest: &str) -> (&str, &str) {
    rest.split_once("; ").unwrap_or((rest, ""))
}

// The journal that runs of a site over these records leave, each over that of the one before.
fn journal_of(rt: &HostRuntime, site: &str, records: &str) -> Result<Vec<u8>> {
    let mut journal = Vec::new(rt.alloc());
    let words = format!(in rt.alloc(); "run {site} journal")?;
    for record in records.split(" | ") {
        if !record.is_empty() {
            let mut trial = Trial::read(rt, words.as_str(), record, "")?;
            trial.journal = journal;
            let Called { disk, .. } = call(rt.alloc(), trial.given(), SOUND)?;
            journal = disk.bytes;
        }
    }
    Ok(journal)
}
