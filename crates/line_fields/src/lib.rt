//! The fields of a line: words and decimal numbers between single spaces.
//!
//! A line is cut at each space, so that two spaces in a row have an empty field between them. Begin with
//! [`field`]: the field at a place, by the definition of the same name in `specs/Fields` of `site_types`; how
//! many there are is [`field_count`]. A reader that goes over all fields in turn takes them from the front,
//! with [`before_space`] and [`after_space`] or with [`split_field`], and looks at each byte once.
//!
//! What a field holds is a word, to which [`is_word`] compares it, or a number: [`is_number`], [`read_octet`],
//! [`read_count`] accept exactly the digits without sign or leading zero of a number of so many bits. The
//! words that say something stand in tables, as `truths` of `specs/Words` with what `on` and `off` say; what a
//! word says is what stands beside it.
//!
//! `proofs/Joined` has what holds of a text that was put together of fields without spaces: each of them is
//! found again at its place, and they are as many. `proofs/PlainFields` says which fields are such: names, codes and
//! numbers.
//!
//! No call takes memory.
#![tactic(auto)]

mod fields;
mod numbers;
mod words;

pub use fields::{after_space, before_space, field, field_count, space_count, split_field};
pub use numbers::{is_number, read_count, read_octet};
pub use words::{is_word, read_truth};
