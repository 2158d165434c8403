use crate::done::Done;
use site_types::{Retained, Site};

/// What settings at a site go by: what was kept at opening, and the operations that were done, the oldest first.
#[derive(Clone, Copy)]
pub struct Settings<'a> {
    pub site: &'a Site,
    pub kept: &'a Retained,
    pub done: &'a [Done],
}
