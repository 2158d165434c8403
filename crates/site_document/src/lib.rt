//! Reads the bytes of a site file into a draft: every key is there, of its kind, known and in its range.
//!
//! Begin with [`read_draft`]. A refusal is a function of the document that the bytes spell: four passes look
//! at the whole file, one after the other, for absent keys, values of a wrong kind, unknown keys, and numbers
//! and lists out of their range. Each looks at the table of the whole file first, then at the lists of loops,
//! zones, points, outputs and markers in their order, and in each table at the keys in alphabetical order;
//! the first finding is answered. What a table may say stands as data: which keys it has, what each asks for,
//! and which numbers it may have. A file without a finding becomes a [`Draft`], in which names still stand
//! where a site has places. The time is about that of reading the TOML document, and the memory some times
//! the file's length.
#![tactic(auto)]

mod collect;
mod draft;
mod draft_marker;
mod draft_output;
mod draft_point;
mod draft_reading;
mod draft_term;
mod draft_zone;
mod form;
mod key;
mod key_text;
mod missing;
mod needs;
mod out_of_range;
mod pass;
mod place;
mod ranges;
mod reading;
mod refusal;
mod refusals;
mod row_kind;
mod rules;
mod tables;
mod terms;
mod unknown;
mod walk;
mod words;
mod wrong_kind;

pub use draft::Draft;
pub use draft_marker::DraftMarker;
pub use draft_output::DraftOutput;
pub use draft_point::DraftPoint;
pub use draft_reading::byte_of;
pub use draft_term::DraftTerm;
pub use draft_zone::DraftZone;
pub use key_text::KeyText;
pub use place::Place;
pub use reading::read_draft;
pub use refusal::SiteRefusal;
pub use row_kind::RowKind;
