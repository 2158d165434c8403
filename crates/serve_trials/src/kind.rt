use crate::edge::Edge;

/// What a case tries. A site is a file; requests are as `request_of` has them, with ` | ` between them, and come over
/// one connection each.
#[derive(Clone, Copy)]
pub(crate) enum Kind {
    /// `serve SITE: REQUEST | REQUEST; OPTIONS`: what is written, what each connection is answered, and what the
    /// register keeps then. Behind ` || ` come the requests of a second serving, over the journal that the first left.
    /// `node SITE PANEL: INPUT | INPUT; OPTIONS` is the same of a panel by itself, with inputs as `input_of` has them.
    Serve,
    /// `failing-keeper SITE: REQUEST | REQUEST; calls 1 to 5`: each call of one edge in that range fails once. With
    /// `SITE PANEL` it is of a panel by itself.
    Failing(Edge),
    /// `day SITE: RECORD`: that a record whose ticks come one a request is told as a run of it tells.
    Day,
}

/// The kinds by name.
pub(crate) const KINDS: [(&str, Kind); 8] = [
    ("serve", Kind::Serve),
    ("node", Kind::Serve),
    ("failing-keeper", Kind::Failing(Edge::Keeper)),
    ("failing-reads", Kind::Failing(Edge::Reads)),
    ("failing-writes", Kind::Failing(Edge::Writes)),
    ("failing-door", Kind::Failing(Edge::Door)),
    ("failing-disk", Kind::Failing(Edge::Disk)),
    ("day", Kind::Day),
];
