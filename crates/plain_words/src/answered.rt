//! A panel's word and faults by its answers.

ghost use Rattle.std.specs.Prelude.{◌≡◌, ◌≤◌, ℕ, option_copied};
ghost use Rattle.std.specs.List.{list_any};
ghost use Rattle.coincidence_rules.specs.Places.{on_zone, zones_where};
ghost use Rattle.panel_conditions.specs.Answered.{answered_faults as answered_faults_by};
ghost use Rattle.panel_conditions.specs.Answered.{answered_word as answered_word_by};
ghost use Rattle.panel_conditions.specs.Missing.{is_off as is_off_at, zone_is_off as zone_is_off_at};
ghost use Rattle.panel_conditions.specs.Points.{addresses_where, on_point, points_where};
ghost use Rattle.plain_words.specs.MissingPoints.{is_shown_missing, lies_among};
ghost use Rattle.plain_words.specs.Judging.{judged, weighed};
ghost use Rattle.plain_words.specs.ZoneStates.{zone_in_state as zone_in_state_by};

use crate::evidence::Evidence;
use crate::missing::is_missing;
use crate::zone_state::ZoneState;
use panel_conditions::Outside;
use panel_settings::Setting;
use plain_history::{addresses_that, numbers_that, point_at, points_in_halves, zone_at};
use site_types::{FaultSet, Point, PointSet, Site, Word};
use tick_units::Tick;

impl Evidence<'_> {
    /// The word of a panel at a tick, which tells a fault where it is so said.
    pub fn answered_word(&self, panel: u8, tick: Tick, fault: bool) -> Word
        ensures { result
            ≡ weighed (λ site kept done. answered_word_by site kept panel done) self.now
            self.now.answers.now tick.0 fault }
    {
        let mask = |state| self.zones_in_state(state, panel, tick);
        Word {
            stamp: tick,
            alarm: mask(ZoneState::Alarm),
            manual: mask(ZoneState::Manual),
            released: mask(ZoneState::Released),
            first: mask(ZoneState::First),
            fault,
        }
    }

    /// The faults of a panel at a tick, of which all but the missing points are told from outside.
    pub fn answered_faults(&self, panel: u8, tick: Tick, outside: &Outside) -> FaultSet
        ensures { result
            ≡ weighed (λ site kept done. answered_faults_by site kept panel done) self.now
            self.now.answers.now tick.0 outside.now }
    {
        FaultSet {
            missing: self.missing_points(panel, tick),
            broken: outside.broken,
            shorted: outside.shorted,
            supply: outside.supply,
            silent: outside.silent,
            links: outside.links,
            unconfirmed: outside.unconfirmed,
        }
    }

    /// The mask of the panel's zones that are in a state.
    pub(crate) fn zones_in_state(&self, state: ZoneState, panel: u8, tick: Tick) -> u32
        ensures { result ≡ zones_where self.now.settings.site.now panel
            (λ (zone : ℕ). judged (zone_in_state_by state) self.now zone tick.0) }
    {
        numbers_that(|number| {
            let zone = zone_at(self.settings.site, panel, number);
            self.found_in_state(state, zone, tick)
        })
    }

    // Whether there is a zone, and it is in a state.
    fn found_in_state(&self, state: ZoneState, zone: Option<usize>, tick: Tick) -> bool
        ensures { result
            ≡ on_zone (λ (zone : ℕ). judged (zone_in_state_by state) self.now zone tick.0) zone }
    {
        match zone {
            None => false,
            Some(zone) => self.zone_in_state(state, zone, tick),
        }
    }

    // The points of the panel that are shown as missing.
    fn missing_points(&self, panel: u8, tick: Tick) -> PointSet
        ensures { result ≡ points_where self.now.settings.site.now panel
            (judged is_shown_missing self.now tick.0) }
    {
        points_in_halves(|line, past| self.missing_on(panel, tick, line, past))
    }

    // The missing points among 96 addresses of a line that come after so many.
    fn missing_on(&self, panel: u8, tick: Tick, line: u8, past: u8) -> u128
        requires { past ≤ 96 }
        ensures { result ≡ addresses_where self.now.settings.site.now panel
            (judged is_shown_missing self.now tick.0) line past }
    {
        if !has_points(self.settings.site, panel, line, past) {
            return 0;
        }
        addresses_that(past, |address| {
            let point = point_at(self.settings.site, panel, line, address);
            self.point_is_missing(point, tick)
        })
    }

    // Whether there is a point, and it is shown as missing.
    fn point_is_missing(&self, point: Option<usize>, tick: Tick) -> bool
        ensures { result ≡ on_point (judged is_shown_missing self.now tick.0) point }
    {
        match point {
            None => false,
            Some(place) => is_missing(self.answers, place) && !self.is_off(place, tick),
        }
    }

    // Whether a point or its zone is disabled at a tick.
    fn is_off(&self, place: usize, tick: Tick) -> bool
        ensures { result ≡ weighed is_off_at self.now place tick.0 }
    {
        self.settings.in_force(Setting::PointOff(place), tick)
            || self.zone_is_off(self.settings.site.points.get(place), tick)
    }

    fn zone_is_off(&self, point: Option<&Point>, tick: Tick) -> bool
        ensures { result ≡ weighed zone_is_off_at self.now (option_copied point.entry) tick.0 }
    {
        match point {
            None => false,
            Some(point) => self
                .settings
                .in_force(Setting::ZoneOff(point.zone as usize), tick),
        }
    }
}

// Whether a panel has a point among 96 addresses of a line that come after so many.
fn has_points(site: &Site, panel: u8, line: u8, past: u8) -> bool
    requires { past ≤ 96 }
    ensures { result ≡ list_any (lies_among panel line past) site.now.points }
{
    let last = past + 96;
    site.points.as_slice().iter().any(|point| point.panel == panel
        && point.line == line
        && past < point.address
        && point.address <= last)
}
