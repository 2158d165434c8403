//! The site file of a drill: eight panels with 3,072 detectors, made from nothing but its rule.
//!
//! Begin with [`drill_file`]: it gives the bytes of a site file, which `read_site` reads as it reads any other. Each
//! panel has four loops of 96 addresses with isolators at 12, 24 and so on up to 84, so that twelve addresses in a row
//! are one section and one zone. A marker of each panel is any of its 32 zones, and its bells ring by that marker.
//!
//! What the file says stands in specs/Files, line by line. It takes about a quarter of a million bytes, and time in
//! proportion.
#![tactic(auto)]

mod files;
mod lines;
mod part;

pub use files::drill_file;
