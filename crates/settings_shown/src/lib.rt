//! The settings that a system keeps are, mask by mask, those that the rules show on the face of a panel.
//!
//! A system knows setting by setting that those it keeps are in force. A face shows masks, and what was kept when
//! the system opened may have bits of points, zones and outputs that the site hasn't. [`settings_at_opening`]
//! drops those and nothing else; [`no_strange_bits_come`] is the law that no operation brings any, and
//! [`in_force_are_shown`] that from then on the masks are those of the rules. [`show_settings`] puts them on a face.
//!
//! `HasNoStrangeBits` of specs/Shown says that of masks, and the law [`bits_have_things`] of each bit.
//! `settings_at_opening` finds the name of each thing of the site once or twice, each in steps that grow with the
//! logarithm of the number of names; `show_settings` takes the same few steps whatever the site. No call takes memory.
#![tactic(auto)]

mod laws;
mod opening;
mod showing;

pub use laws::{bits_have_things, in_force_are_shown, no_strange_bits_come};
pub use opening::settings_at_opening;
pub use showing::show_settings;
