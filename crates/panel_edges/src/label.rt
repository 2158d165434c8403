use arrayvec::ArrayString;

/// A name of at most 16 bytes, as a zone, a point or an engineer has it. Compare labels by their text: what a contract
/// says of one is said of its bytes.
pub type Label = ArrayString<16>;
