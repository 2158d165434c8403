//! The settings in force that the face of a panel shows.

ghost use Rattle.std.specs.Prelude.{◌≡◌, ◌≤◌, ℕ};
ghost use Rattle.site_types.specs.Done.{InTest, OutputOff, PointOff, ZoneOff};
ghost use Rattle.coincidence_rules.specs.Places.{on_zone, zones_where};
ghost use Rattle.panel_conditions.specs.Points.{addresses_where, on_point, points_where};
ghost use Rattle.panel_rules.specs.Outputs.{on_place, outputs_where};
ghost use Rattle.plain_history.specs.Settings.{is_set, zone_setting};

use crate::numbered::{
    addresses_that, numbers_that, output_at, point_at, points_in_halves, zone_at,
};
use crate::settings::Settings;
use panel_settings::Setting;
use site_types::{PointSet, Site};
use tick_units::Tick;

/// What an operation may set of a zone.
#[derive(Clone, Copy)]
pub(crate) enum ZoneSetting {
    Off,
    Test,
}

impl Settings<'_> {
    /// The zones of a panel that are disabled at a tick.
    pub fn zones_off(&self, panel: u8, tick: Tick) -> u32
        ensures { result ≡ zones_where self.now.site.now panel
            (λ (zone : ℕ). is_set self.now (ZoneOff zone) tick.0) }
    {
        self.zones_set(ZoneSetting::Off, panel, tick)
    }

    /// The zones of a panel that are in test at a tick.
    pub fn zones_in_test(&self, panel: u8, tick: Tick) -> u32
        ensures { result ≡ zones_where self.now.site.now panel
            (λ (zone : ℕ). is_set self.now (InTest zone) tick.0) }
    {
        self.zones_set(ZoneSetting::Test, panel, tick)
    }

    /// The outputs of a panel that are disabled at a tick.
    pub fn outputs_off(&self, panel: u8, tick: Tick) -> u32
        ensures { result ≡ outputs_where self.now.site.now panel
            (λ (output : ℕ). is_set self.now (OutputOff output) tick.0) }
    {
        numbers_that(|number| {
            let output = output_at(self.site, panel, number);
            self.output_is_off(output, tick)
        })
    }

    /// The points of a panel that are disabled at a tick.
    pub fn points_off(&self, panel: u8, tick: Tick) -> PointSet
        ensures { result ≡ points_where self.now.site.now panel
            (λ (point : ℕ). is_set self.now (PointOff point) tick.0) }
    {
        points_in_halves(|line, past| self.points_off_on(panel, tick, line, past))
    }

    // The zones of a panel of which a setting is in force.
    fn zones_set(&self, which: ZoneSetting, panel: u8, tick: Tick) -> u32
        ensures { result ≡ zones_where self.now.site.now panel
            (λ (zone : ℕ). is_set self.now (zone_setting which zone) tick.0) }
    {
        numbers_that(|number| {
            let zone = zone_at(self.site, panel, number);
            self.zone_is_set(which, zone, tick)
        })
    }

    // Whether there is a zone, and the setting of it is in force.
    fn zone_is_set(&self, which: ZoneSetting, zone: Option<usize>, tick: Tick) -> bool
        ensures { result
            ≡ on_zone (λ (zone : ℕ). is_set self.now (zone_setting which zone) tick.0) zone }
    {
        match zone {
            None => false,
            Some(zone) => match which {
                ZoneSetting::Off => self.in_force(Setting::ZoneOff(zone), tick),
                ZoneSetting::Test => self.in_force(Setting::InTest(zone), tick),
            },
        }
    }

    // Whether there is an output, and it is disabled.
    fn output_is_off(&self, output: Option<usize>, tick: Tick) -> bool
        ensures { result
            ≡ on_place (λ (output : ℕ). is_set self.now (OutputOff output) tick.0) output }
    {
        match output {
            None => false,
            Some(output) => self.in_force(Setting::OutputOff(output), tick),
        }
    }

    // The disabled points among 96 addresses of a line that come after so many.
    fn points_off_on(&self, panel: u8, tick: Tick, line: u8, past: u8) -> u128
        requires { past ≤ 96 }
        ensures { result ≡ addresses_where self.now.site.now panel
            (λ (point : ℕ). is_set self.now (PointOff point) tick.0) line past }
    {
        addresses_that(past, |address| {
            let point = point_at(self.site, panel, line, address);
            self.point_is_off(point, tick)
        })
    }

    // Whether there is a point, and it is disabled.
    fn point_is_off(&self, point: Option<usize>, tick: Tick) -> bool
        ensures { result ≡ on_point (λ (point : ℕ). is_set self.now (PointOff point) tick.0) point }
    {
        match point {
            None => false,
            Some(point) => self.in_force(Setting::PointOff(point), tick),
        }
    }
}

ghost use Rattle.std.specs.Prelude.{Bool, false, slice_index_or};
ghost use Rattle.plain_history.specs.Settings.{AreFlags};

/// The outputs of a panel that pass a test, of which a flag is given for each output of the site.
pub fn outputs_that(site: &Site, panel: u8, flags: &[bool]) -> u32
    ensures { (test : ℕ → Bool) → AreFlags site.now flags.now test
        → result ≡ outputs_where site.now panel test }
{
    outputs_flagged(site, panel, flags)
}

fn outputs_flagged(site: &Site, panel: u8, flags: &[bool]) -> u32
    ensures { result ≡ outputs_where site.now panel
        (λ (place : ℕ). slice_index_or flags.now place false) }
{
    numbers_that(|number| {
        let output = output_at(site, panel, number);
        is_flagged(flags, output)
    })
}

fn is_flagged(flags: &[bool], output: Option<usize>) -> bool
    ensures { result ≡ on_place (λ (place : ℕ). slice_index_or flags.now place false) output }
{
    match output {
        None => false,
        Some(place) => flag_at(flags, place),
    }
}

fn flag_at(flags: &[bool], place: usize) -> bool
    ensures { result ≡ slice_index_or flags.now place false }
{
    if place < flags.len() {
        flags[place]
    } else {
        false
    }
}
