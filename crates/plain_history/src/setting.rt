ghost use Rattle.std.specs.Prelude.{◌≡◌, option_copied};
ghost use Rattle.site_types.specs.Done.{is_blocked as is_blocked_at, is_zone_blocked as is_zone_blocked_at};
ghost use Rattle.panel_settings.specs.Settings.{setting_from};
ghost use Rattle.plain_history.specs.Settings.{is_set, settled};

use crate::done::Done;
use crate::settings::Settings;
use panel_settings::{Setting, is_same, setting_of, value_in, value_set};
use site_types::Point;
use tick_units::Tick;

impl Settings<'_> {
    /// The value of a setting at a tick: by the latest operation on it that was done in a tick before, else the
    /// one that is kept.
    pub fn in_force(&self, setting: Setting, tick: Tick) -> bool
        ensures { result ≡ is_set self.now (setting_from setting) tick.0 }
    {
        let mut value = value_in(self.site, self.kept, setting);
        for one in self.done {
            value = value_after(setting, tick, one, value);
        }
        value
    }

    /// Whether at a tick a point is disabled, or its zone is disabled or in test.
    pub fn is_blocked(&self, point: usize, tick: Tick) -> bool
        ensures { result ≡ settled is_blocked_at self.now point tick.0 }
    {
        self.in_force(Setting::PointOff(point), tick)
            || self.is_zone_blocked(self.site.points.get(point), tick)
    }

    // Whether the zone of a point is disabled or in test.
    fn is_zone_blocked(&self, point: Option<&Point>, tick: Tick) -> bool
        ensures { result ≡ settled is_zone_blocked_at self.now (option_copied point.entry) tick.0 }
    {
        match point {
            None => false,
            Some(point) => {
                let zone = point.zone as usize;
                self.in_force(Setting::ZoneOff(zone), tick)
                    || self.in_force(Setting::InTest(zone), tick)
            }
        }
    }
}

ghost use Rattle.std.specs.Prelude.{◌&&◌, if◌then◌else◌, nat_lt};
ghost use Rattle.site_types.specs.Done.{is_on as is_on_setting};
ghost use Rattle.site_types.specs.Done.{value_set as value_given};
ghost use Rattle.plain_history.specs.Histories.{done_of};

// The value of a setting after one more operation, of those that were done before a tick.
fn value_after(setting: Setting, tick: Tick, done: &Done, before: bool) -> bool
    ensures { result ≡ (if is_on_setting (setting_from setting) (done_of done.now)
        && nat_lt done.now.tick.0 tick.0 then value_given done.now.operation else before) }
{
    if is_on(setting, done) && done.tick.0 < tick.0 {
        value_set(done.operation)
    } else {
        before
    }
}

// Whether an operation was on the setting.
pub fn is_on(setting: Setting, done: &Done) -> bool
    ensures { result ≡ is_on_setting (setting_from setting) (done_of done.now) }
{
    match setting_of(done.panel, done.operation) {
        None => false,
        Some(other) => is_same(setting, other),
    }
}
