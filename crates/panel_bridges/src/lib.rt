//! Where the definitions of the whole and those of its parts say the same in two forms.
//!
//! The definitions of `panel_rules` speak of tests, histories and steps; the parts hold masks, calls of a ring and
//! tables. Whoever computes what the definitions say needs the same few facts of the two, and finds them here, in
//! specs/ the relations and in proofs/ the lemmas: masks that are the facts of an Effect turn, and the markers'
//! equations over both; the ring's links that are up and down and the panels that are silent; no faults before the
//! first tick; the steps of a timeline as one tick ends and the next begins.
#![tactic(auto)]
