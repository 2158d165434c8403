/// What the value of a key has to be.
#[derive(Clone, Copy, Debug, PartialEq, Eq)]
pub enum Form {
    /// A whole number.
    Number,
    /// A text that is a name.
    Name,
    /// `none`, `a`, `b` or `c`.
    ZoneType,
    /// `detector` or `manual`.
    PointKind,
    /// `sounder`, `routing`, `protection` or `relay`.
    OutputKind,
    /// `all`, `any` or `atleast`.
    MarkerKind,
    /// A list of texts of 64 lower-case hexadecimal digits.
    Digests,
    /// A list of whole numbers.
    Numbers,
    /// A list of texts, each a term of a marker.
    Terms,
    /// A list of tables, each of which is looked at with its own list.
    Tables,
}
