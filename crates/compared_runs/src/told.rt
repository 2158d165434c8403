ghost use Rattle.tick_units.specs.Orders.{IsPanelCount};
ghost use Rattle.driven_panel.specs.Installations.{IsBetween};

use anyhow::Result;
use driven_panel::{Installation, face_of};
use face_text::Face;
use site_types::Site;
use std::alloc::{AllocError, Global};
use timeline_text::changes_of;
use trial_cases::Lines;
use trial_records::answers_of;

/// What was told in a tick: what each panel showed, and what was answered, as text.
#[derive(Drop, PartialEq)]
pub struct Told {
    /// By panel.
    pub faces: Vec<Face>,
    pub answers: String,
}

impl Told {
    /// What a system told in the tick that ended last.
    pub fn by_system(alloc: Global, own: &Installation, panels: u8) -> Result<Told>
        requires between { IsBetween panels own.now }
        requires count { IsPanelCount panels }
    {
        let mut faces = Vec::new(alloc);
        for before in 0..panels {
            faces.push(face_of(own, panels, before + 1))?;
        }
        let answers = answers_of(alloc, own.system.answers())?;
        Ok(Told { faces, answers })
    }

    /// What these faces show, with these answers.
    pub fn by_faces(alloc: Global, faces: &[Face], answers: String) -> Result<Told, AllocError> {
        let mut all = Vec::new(alloc);
        for face in faces {
            all.push(*face)?;
        }
        Ok(Told {
            faces: all,
            answers,
        })
    }

    /// What is told otherwise than before, and the answers, on one line; empty where there is neither.
    pub fn words(&self, alloc: Global, site: &Site, before: Option<&Told>) -> Result<String> {
        let mut lines = Lines::new(alloc);
        for (place, is) in self.faces.iter().enumerate() {
            let was = match before.and_then(|told| told.faces.get(place)) {
                Some(face) => *face,
                None => Face::empty(is.panel),
            };
            if was != *is {
                lines.item(", ", &changes_of(alloc, site, &was, is)?);
            }
        }
        if !self.answers.is_empty() {
            lines.item(", ", &self.answers);
        }
        lines.done()
    }
}

/// The first place at which two lists of ticks differ.
pub fn first_other(some: &[Told], others: &[Told]) -> Option<usize> {
    for place in 0..some.len().max(others.len()) {
        if some.get(place) != others.get(place) {
            return Some(place);
        }
    }
    None
}
