//! What is read of a record as more of its bytes come.
//!
//! Whoever reads lines with `LineReader` of `record_lines` needs the same two facts, and finds them in proofs/: what
//! was read of some bytes goes on with what is read of more (Growths), and where a line more is read with some bytes,
//! the last of them ends a line and no other does (LineEnds, `EndsOneLine` of specs/OneLine).
#![tactic(auto)]
