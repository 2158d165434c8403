/// What a case tries.
#[derive(Clone, Copy)]
pub(crate) enum Kind {
    /// `order PANELS`: the canonical order.
    Order,
    /// `seats PANELS: PANEL TASK, PANEL TASK` and so on: whether these seats are an order.
    Seats,
    /// `switch TICK`: what a switch is at in the tick in which it is set, and in the next one.
    Switch,
    /// `next-tick TICK`.
    NextTick,
    /// `number "TEXT"`: the number that a text spells.
    Number,
    /// `name "TEXT"`: the name and the code that a text spells.
    Name,
    /// `profile FORMAT`: numbers of a format.
    Profile,
    /// `digest TEXT`.
    Digest,
    /// `lane: STEP, STEP` and so on: what turns take of a lane.
    Lane,
    /// `loop LAST ISOLATOR ..: PIECE STATE, ..`: which addresses are reached.
    Loop,
    /// `each-fault LAST ISOLATOR ..`: the same of each single fault of a loop, against a plain program.
    EachFault,
    /// `ring PANELS ORDER: HISTORY`: which alarms the panels of a ring hear of, and which panels they find silent.
    Ring,
    /// `ring-words PANELS: STEP, STEP` and so on: what the panels of a ring keep and hand on.
    RingWords,
    /// `allowed SITE: OPERATION`: what each level may do.
    Allowed,
    /// `supplies WAIT WAIT WAIT WAIT: HISTORY`: which faults of supplies are shown.
    Supplies,
    /// `silences: HISTORY`: when sounders are quiet.
    Silences,
    /// `hold SITE: HISTORY`: what a panel shows.
    Hold,
}

/// The kinds by name.
pub(crate) const KINDS: [(&str, Kind); 17] = [
    ("order", Kind::Order),
    ("seats", Kind::Seats),
    ("switch", Kind::Switch),
    ("next-tick", Kind::NextTick),
    ("number", Kind::Number),
    ("name", Kind::Name),
    ("profile", Kind::Profile),
    ("digest", Kind::Digest),
    ("lane", Kind::Lane),
    ("loop", Kind::Loop),
    ("each-fault", Kind::EachFault),
    ("ring", Kind::Ring),
    ("ring-words", Kind::RingWords),
    ("allowed", Kind::Allowed),
    ("supplies", Kind::Supplies),
    ("silences", Kind::Silences),
    ("hold", Kind::Hold),
];
