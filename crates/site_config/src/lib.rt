//! Reads a site file, and passes on the types of a site.
//!
//! Begin with `read_site`: it answers the site that the bytes of a file spell, which is valid, or the first
//! thing that is wrong in them. A crate that takes sites may name this crate alone: all that `site_types` has
//! is here under its own name, the code and the words of clauses (`Rattle.site_config.specs.Valid` is its
//! `specs/Valid`, `Rattle.site_config.specs.Site` its struct `Site`).
//!
//! Reading takes memory some times the file's length, and time about that length times its logarithm.
#![tactic(auto)]

mod claim;
mod claims;
mod crossing;
mod lookups;
mod named_list;
mod names;
mod no_such;
mod partners;
mod placing;
mod reading;
mod section_point;
mod spot;
mod twice;

pub use reading::read_site;
pub use site_document::{KeyText, SiteRefusal};
pub use site_types::{
    Answer, Buzzer, Change, Combine, Event, FaultSet, GREATEST_COUNT, Heard, Item, LINE_BYTES,
    Label, LoopPlan, MOST_CODES, MOST_LOOPS, MOST_MARKERS, MOST_OPERATIONS, MOST_OUTPUTS,
    MOST_PANELS, MOST_TERMS, MOST_ZONES, Marker, NAME_BYTES, Named, Operation, Output, OutputKind,
    PieceState, Point, PointSet, PointState, Profile, Requests, Retained, Rule, SITE_BYTES, Site,
    SupplyKind, Term, Thing, Waits, Word, Zone, carry, common_32, either_32, has_bit_8, has_bit_32,
    has_bit_128, mask_from_8, mask_from_32, mask_from_128, read_code, read_name, read_number,
    site_digest, with_bit_8, with_bit_32, with_bit_128, without_32,
};
