use plain_history::Moment;
use site_types::{Retained, Site};

/// A moment that comes at a site with this kept, with those before it and all with it.
#[derive(Clone, Copy)]
pub(crate) struct Coming<'a> {
    pub(crate) site: &'a Site,
    pub(crate) kept: &'a Retained,
    pub(crate) before: &'a [Moment],
    pub(crate) moment: &'a Moment,
    pub(crate) with_it: &'a [Moment],
}
