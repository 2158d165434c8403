ghost use Rattle.std.specs.Prelude.{◌≡◌, ◌&&◌, is_some};
ghost use Rattle.coincidence_rules.specs.Kept.{is_long, is_within};
ghost use Rattle.coincidence.specs.Observations.{own_coincides, own_confirmed, own_released, partner_confirmed};
ghost use Rattle.coincidence.specs.Observations.{partner_released};

use site_types::Rule;
use tick_units::Tick;

/// All by which an answer is found to confirm or release a zone: whether it counts, how long its point has been in
/// alarm, and the earlier answers with which it may make a pair.
#[derive(Clone, Copy)]
pub struct Observation {
    pub stamp: Tick,
    pub counted: bool,
    /// Whether it is of a manual call point.
    pub manual: bool,
    /// Where the run of its point's counted answers began.
    pub run: Option<Tick>,
    /// The floor of its zone.
    pub floor: Tick,
    /// The stamp of the latest answer of another point of its zone that makes a pair with it.
    pub own_second: Option<Tick>,
    /// The stamp of the latest answer of a point of its zone's partner that makes a pair with it.
    pub partner_second: Option<Tick>,
}

impl Observation {
    /// Whether the answer counts and is of a manual call point.
    pub fn calls(&self) -> bool
        ensures { result ≡ self.now.counted && self.now.manual }
    {
        self.counted && self.manual
    }

    /// Whether the answer confirms its own zone.
    pub fn confirms_own(&self, rule: Rule) -> bool
        ensures { result ≡ own_confirmed rule self.now }
    {
        self.counted && (self.manual || self.coincides(rule))
    }

    fn coincides(&self, rule: Rule) -> bool
        ensures { result ≡ own_coincides rule self.now }
    {
        match rule {
            Rule::Plain | Rule::C => true,
            Rule::A { verify, within } => self.is_verified(verify)
                || self.is_within(self.own_second, within),
            Rule::B { within } => self.is_within(self.own_second, within)
                || self.is_within(self.partner_second, within),
        }
    }

    /// Whether the answer releases its own zone.
    pub fn releases_own(&self, rule: Rule) -> bool
        ensures { result ≡ own_released rule self.now }
    {
        match rule {
            Rule::C => self.counted
                && (self.manual || self.own_second.is_some() || self.partner_second.is_some()),
            Rule::Plain | Rule::A { .. } | Rule::B { .. } => self.confirms_own(rule),
        }
    }

    /// Whether the answer confirms the partner of its zone.
    pub fn confirms_partner(&self, rule: Rule) -> bool
        ensures { result ≡ partner_confirmed rule self.now }
    {
        match rule {
            Rule::B { within } => self.counted
                && !self.manual
                && self.is_within(self.partner_second, within),
            Rule::Plain | Rule::A { .. } | Rule::C => false,
        }
    }

    /// Whether the answer releases the partner of its zone.
    pub fn releases_partner(&self, rule: Rule) -> bool
        ensures { result ≡ partner_released rule self.now }
    {
        match rule {
            Rule::C => self.counted && self.partner_second.is_some(),
            Rule::Plain | Rule::A { .. } | Rule::B { .. } => self.confirms_partner(rule),
        }
    }

    // Whether the run lies after the floor and began long enough ago.
    fn is_verified(&self, verify: u16) -> bool
        ensures { result ≡ is_long verify self.now.floor.0 self.now.stamp.0 self.now.run }
    {
        match self.run {
            None => false,
            Some(first) => self.floor.0 < first.0
                && first.0 <= self.stamp.0
                && self.stamp.0 - first.0 >= verify as u64,
        }
    }

    fn is_within(&self, earlier: Option<Tick>, within: u16) -> bool
        ensures { result ≡ is_within within self.now.stamp.0 earlier }
    {
        match earlier {
            None => false,
            Some(stamp) => self.stamp.0.saturating_sub(stamp.0) <= within as u64,
        }
    }
}
