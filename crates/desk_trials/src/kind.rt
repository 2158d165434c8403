/// What a case tries.
#[derive(Clone, Copy)]
pub(crate) enum Kind {
    /// What is taken of a connection.
    Request,
    /// What is taken of a connection over a socket of the loopback address.
    Socket,
    /// What the body of a stop says.
    Stop,
    /// What the body of a visit says.
    Visit,
}

/// The kinds by name.
pub(crate) const KINDS: [(&str, Kind); 4] = [
    ("request", Kind::Request),
    ("socket", Kind::Socket),
    ("stop", Kind::Stop),
    ("visit", Kind::Visit),
];
