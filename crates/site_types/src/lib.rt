//! The types on which every other crate stands: a site and its parts, what befalls it and is asked of it,
//! what is kept of it.
//!
//! Begin with `Site`. It holds what a site file spells, each name of another part being the place of that
//! part in its list. A reader of site files alone makes one, and `IsValid` of `specs/Valid` says what holds
//! of each: forms and ranges, no name or number twice, references that are there, sections that cross no
//! zones, partners that are mutual, and names in their order. `proofs/ValidSites` has what follows for
//! callers.
//!
//! `Site::find` finds a name in steps that grow with the logarithm of the number of names; `Site::loop_of`
//! and `Site::has_event` look at the few loops or at one place. Every other call here takes the same few
//! steps whatever the site, but for `carry` and `site_digest`, and no call takes memory.
//!
//! `Retained` is what a power cut may not take: `Site::change_of` gives the change that an operation makes,
//! `Retained::apply` makes it, and `carry` takes it over to a changed site, in steps that grow with the
//! number of its names times the logarithm of the old site's. What the operations done so far make of
//! settings, floors and cancellings stands in `specs/Done`, for other crates to cite; `proofs/Settled` shows
//! that what is retained is what was in force.
//!
//! Three things stand here alone in the whole repository: single bits of masks (`has_bit_32`, `with_bit_32`,
//! `mask_from_32` and their kin for 8 and 128 bits, `PointSet`), the numbers of ticks that go by a site's
//! format (`Profile`), and the forms of names, codes and numbers (`read_name`, `read_code`, `read_number`).
//!
//! [`sections_hold`] and [`kept_are_changes`] are laws: their contracts say which addresses a section holds
//! and which operations are kept over a power cut, and they do nothing.
#![tactic(auto)]

mod answer;
mod bits;
mod buzzer;
mod carry_over;
mod change;
mod combine;
mod digest;
mod event;
mod event_names;
mod fault_set;
mod heard;
mod item;
mod label;
mod laws;
mod limits;
mod lookup;
mod loop_plan;
mod marker;
mod named;
mod names;
mod numbers;
mod operation;
mod output;
mod output_kind;
mod piece_state;
mod point;
mod point_set;
mod point_state;
mod profile;
mod requests;
mod restriction;
mod retained;
mod rule;
mod site;
mod supply_kind;
mod term;
mod waits;
mod word;
mod zone;

pub use answer::Answer;
pub use bits::{
    common_32, either_32, has_bit_8, has_bit_32, has_bit_128, mask_from_8, mask_from_32,
    mask_from_128, with_bit_8, with_bit_32, with_bit_128, without_32,
};
pub use buzzer::Buzzer;
pub use carry_over::carry;
pub use change::Change;
pub use combine::Combine;
pub use digest::site_digest;
pub use event::Event;
pub use fault_set::FaultSet;
pub use heard::Heard;
pub use item::Item;
pub use label::Label;
pub use laws::{kept_are_changes, sections_hold};
pub use limits::{
    GREATEST_COUNT, LINE_BYTES, MOST_CODES, MOST_LOOPS, MOST_MARKERS, MOST_OPERATIONS,
    MOST_OUTPUTS, MOST_PANELS, MOST_TERMS, MOST_ZONES, NAME_BYTES, SITE_BYTES,
};
pub use loop_plan::LoopPlan;
pub use marker::Marker;
pub use named::{Named, Thing};
pub use names::{read_code, read_name};
pub use numbers::read_number;
pub use operation::Operation;
pub use output::Output;
pub use output_kind::OutputKind;
pub use piece_state::PieceState;
pub use point::Point;
pub use point_set::PointSet;
pub use point_state::PointState;
pub use profile::Profile;
pub use requests::Requests;
pub use retained::Retained;
pub use rule::Rule;
pub use site::Site;
pub use supply_kind::SupplyKind;
pub use term::Term;
pub use waits::Waits;
pub use word::Word;
pub use zone::Zone;
