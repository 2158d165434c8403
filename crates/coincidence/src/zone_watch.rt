ghost use Rattle.std.specs.Prelude.{◌≡◌, ◌<◌, None, true};
ghost use Rattle.site_types.specs.declared.rule.Rule.TheVariants.{Plain};
ghost use Rattle.coincidence.specs.PlainZones.{IsSettledAt};
ghost use Rattle.coincidence.specs.Parts.{zone_begun, zone_noted, zone_switched, zone_tested};
ghost use Rattle.tick_units.specs.LastTicks.{last_after, last_at};
ghost use Rattle.coincidence_rules.specs.Kept.{bar};

use crate::recent::Recent;
use site_types::{Rule, Zone};
use tick_units::{LastDone, Switch, Tick};

/// What is kept of a zone.
#[derive(Clone, Copy)]
pub struct ZoneWatch {
    /// Its number at the panel, from 1.
    pub number: u8,
    pub rule: Rule,
    /// The place of its partner.
    pub partner: Option<u16>,
    /// Whether it is disabled.
    pub off: Switch,
    pub test: Switch,
    /// Its last disabling or test.
    pub moved: LastDone,
    pub cancelled: LastDone,
    /// Its latest answers that may make a pair with others.
    pub recent: Recent,
}

impl ZoneWatch {
    /// What is kept of a zone at the start.
    pub fn new(zone: &Zone, off: bool, test: bool) -> ZoneWatch
        ensures { result ≡ zone_begun zone.now off test }
    {
        ZoneWatch {
            number: zone.number,
            rule: zone.rule,
            partner: zone.partner,
            off: Switch::new(off),
            test: Switch::new(test),
            moved: LastDone::never(),
            cancelled: LastDone::never(),
            recent: Recent::none(),
        }
    }

    /// Takes note of an answer, if it may make a pair with others.
    pub fn note(&mut self, pairs: bool, point: u16, stamp: Tick)
        ensures { self.new ≡ zone_noted pairs point stamp self.old }
    {
        if pairs {
            self.recent.note(point, stamp);
        }
    }

    /// Whether each alarm that counts confirms and releases it by itself, and means nothing for another zone.
    pub fn is_plain(&self) -> bool
        ensures { result ≡ true → (self.now.rule ≡ Plain) × (self.now.partner ≡ None) }
    {
        matches!(self.rule, Rule::Plain) && self.partner.is_none()
    }

    /// Whether all operations that may block its alarms or move its floor lie before a tick, with the last reset.
    pub fn is_settled(&self, reset: &LastDone, at: Tick) -> bool
        ensures { result ≡ true → IsSettledAt at.0 reset.now self.now }
    {
        if reset.tick.0 >= at.0 || self.moved.tick.0 >= at.0 {
            return false;
        }
        self.off.since.0 < at.0 && self.test.since.0 < at.0
    }

    /// After which tick an earlier answer must lie to make a pair with one of this stamp.
    pub fn bar(&self, floor: Tick, stamp: Tick) -> Tick
        ensures { result.0 ≡ bar self.now.rule floor.0 (last_at stamp.0 self.now.cancelled) }
    {
        match self.rule {
            Rule::B { .. } => Tick(floor.0.max(self.cancelled.before(stamp).0)),
            Rule::Plain | Rule::A { .. } | Rule::C => floor,
        }
    }

    pub fn set_off(&mut self, off: bool, at: Tick)
        requires { self.old.off.since.0 < at.0 }
        ensures { self.new ≡ zone_switched off at self.old }
    {
        self.off.set(off, at);
        if off {
            self.moved.raise(at);
        }
    }

    pub fn set_test(&mut self, on: bool, at: Tick)
        requires { self.old.test.since.0 < at.0 }
        ensures { self.new ≡ zone_tested on at self.old }
    {
        self.test.set(on, at);
        if on {
            self.moved.raise(at);
        }
    }

    pub fn cancel(&mut self, at: Tick)
        ensures { self.new ≡ record self.old { cancelled = last_after at self.old.cancelled } }
    {
        self.cancelled.raise(at);
    }
}
