use blocked_points::DoneOperation;
use cause_effect::Plan;
use face_text::Timeline;
use site_types::Site;

/// What is judged: a text by the record that its site had.
#[derive(Clone, Copy)]
pub(crate) struct Case<'a> {
    pub(crate) site: &'a Site,
    /// Of the site's markers.
    pub(crate) plan: &'a Plan,
    pub(crate) timeline: &'a Timeline,
    /// The operations that the text answers `done`, the oldest first.
    pub(crate) done: &'a [DoneOperation],
}
