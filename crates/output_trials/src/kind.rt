/// What a case tries.
#[derive(Clone, Copy)]
pub(crate) enum Kind {
    /// Which outputs of panel 1 are let through.
    Delay,
    /// What the routing outputs of panel 1 are at.
    Route,
    /// What the outputs of a panel are at, where all are on, before and after each is confirmed.
    ConfirmAll,
    /// What the outputs of panels 1 and 2 are asked for.
    Ask,
    /// Which markers depend on each other in a circle.
    Cycle,
    /// What level a code opens.
    Level,
    /// Drawn silences, against a plain program.
    DrawnSilences,
    /// Drawn requests, overrides and delays, against a plain program.
    DrawnDelays,
    /// Drawn confirmations, against a plain program.
    DrawnConfirmations,
    /// Drawn tables of markers, against a plain program.
    DrawnMarkers,
    /// Drawn turns of a ring's panels, against a plain program.
    DrawnRing,
}

/// The kinds by name.
pub(crate) const KINDS: [(&str, Kind); 11] = [
    ("delay", Kind::Delay),
    ("route", Kind::Route),
    ("confirm-all", Kind::ConfirmAll),
    ("ask", Kind::Ask),
    ("cycle", Kind::Cycle),
    ("level", Kind::Level),
    ("drawn-silences", Kind::DrawnSilences),
    ("drawn-delays", Kind::DrawnDelays),
    ("drawn-confirmations", Kind::DrawnConfirmations),
    ("drawn-markers", Kind::DrawnMarkers),
    ("drawn-ring", Kind::DrawnRing),
];
