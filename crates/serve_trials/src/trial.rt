use crate::called::serve;
use crate::inputs::input_of;
use crate::options::{option, option_or, outside_of};
use crate::outside::{Outside, SOUND};
use crate::requests::request_of;
use anyhow::{Context, Result};
use site_types::site_digest;
use std::fs;
use trial_cases::Case;

/// A case that was read: what its calls find, and what is said of the outside.
#[derive(Drop)]
pub(crate) struct Trial<'a> {
    /// The name and the file of the site. Where there is no such file the shelf has none.
    pub(crate) name: &'a str,
    pub(crate) site: Option<Vec<u8>>,
    /// The digest of that file.
    pub(crate) digest: [u8; 32],
    /// The panel that runs by itself. Empty where the whole site is served.
    pub(crate) panel: &'a str,
    pub(crate) journal: Vec<u8>,
    /// What comes over each connection.
    pub(crate) requests: Vec<Vec<u8>>,
    pub(crate) outside: Outside,
    pub(crate) options: &'a str,
}

impl<'a> Trial<'a> {
    /// The trial of a case `KIND SITE: REQUEST | REQUEST || REQUEST; OPTIONS`, the last of its servings. Each finds the
    /// journal that the one before left; with `before-at` those before the last are of that site, and with `journal`
    /// the last finds that file.
    pub(crate) fn of_case(rt: &HostRuntime, case: &Case<'a>) -> Result<Trial<'a>> {
        let (servings, options) = case.rest.split_once("; ").unwrap_or((case.rest, ""));
        let (before, last) = servings.rsplit_once(" || ").unwrap_or(("", servings));
        let (name, panel) = case.subject.split_once(' ').unwrap_or((case.subject, ""));
        let mut trial = Trial::read(rt, name, panel, last, options)?;
        if !before.is_empty() {
            let site = option_or(options, "before-at", name);
            let earlier = Trial::read(rt, site, panel, before, "")?;
            trial.journal = serve(rt.alloc(), &earlier, SOUND)?.into_journal();
        }
        let file = option(options, "journal");
        if !file.is_empty() {
            trial.journal = fs::read(rt, file).context(format_args!("reading {file}"))?;
        }
        Ok(trial)
    }

    /// Whether a panel runs by itself.
    pub(crate) fn is_node(&self) -> bool {
        !self.panel.is_empty()
    }

    // Requests over no journal.
    fn read(
        rt: &HostRuntime,
        name: &'a str,
        panel: &'a str,
        requests: &str,
        options: &'a str,
    ) -> Result<Trial<'a>> {
        let site = fs::read(rt, name).ok();
        let digest = match &site {
            Some(file) => site_digest(file.as_slice()),
            None => [0; 32],
        };
        let mut all = Vec::new(rt.alloc());
        for words in requests.split(" | ") {
            if words == "nothing" {
                continue;
            }
            all.push(if panel.is_empty() {
                request_of(rt, words)?
            } else {
                input_of(rt, &digest, words)?
            })?;
        }
        Ok(Trial {
            name,
            site,
            digest,
            panel,
            journal: Vec::new(rt.alloc()),
            requests: all,
            outside: outside_of(options)?,
            options,
        })
    }
}
