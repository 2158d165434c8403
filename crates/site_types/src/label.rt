use arrayvec::ArrayString;

/// A name: 1 to 16 of `a` to `z`, `0` to `9` and `-`, beginning with a letter. A code lies in one too, without `-`.
pub type Label = ArrayString<16>;
