ghost use Rattle.std.specs.Prelude.{◌≡◌, option_map};
ghost use Rattle.site_types.specs.Done.{item_off as setting_of_item, operation_setting, same_setting};
ghost use Rattle.site_types.specs.Done.{value_set as value_given};
ghost use Rattle.panel_settings.specs.Settings.{setting_from};

use site_types::{Item, Operation};

/// What an operation may set until another sets it anew. Points, zones and outputs are places in the site's lists.
#[derive(Clone, Copy, Debug, PartialEq, Eq)]
pub enum Setting {
    PointOff(usize),
    ZoneOff(usize),
    OutputOff(usize),
    InTest(usize),
    DelaysOff(u8),
    Counter(u8),
}

/// Whether two settings are one.
pub fn is_same(setting: Setting, other: Setting) -> bool
    ensures { result ≡ same_setting (setting_from setting) (setting_from other) }
{
    match (setting, other) {
        (Setting::PointOff(a), Setting::PointOff(b)) => a == b,
        (Setting::ZoneOff(a), Setting::ZoneOff(b)) => a == b,
        (Setting::OutputOff(a), Setting::OutputOff(b)) => a == b,
        (Setting::InTest(a), Setting::InTest(b)) => a == b,
        (Setting::DelaysOff(a), Setting::DelaysOff(b)) => a == b,
        (Setting::Counter(a), Setting::Counter(b)) => a == b,
        _ => false,
    }
}

/// The setting that an operation at a panel is on.
pub fn setting_of(panel: u8, operation: Operation) -> Option<Setting>
    ensures { option_map setting_from result ≡ operation_setting panel operation }
{
    match operation {
        Operation::Disable(item) | Operation::Enable(item) => Some(item_off(item)),
        Operation::Test(zone) | Operation::Untest(zone) => Some(Setting::InTest(zone as usize)),
        Operation::Delays(_) => Some(Setting::DelaysOff(panel)),
        Operation::Clear => Some(Setting::Counter(panel)),
        _ => None,
    }
}

fn item_off(item: Item) -> Setting
    ensures { setting_from result ≡ setting_of_item item }
{
    match item {
        Item::Point(point) => Setting::PointOff(point as usize),
        Item::Zone(zone) => Setting::ZoneOff(zone as usize),
        Item::Output(output) => Setting::OutputOff(output as usize),
    }
}

/// What an operation makes of its setting: true for disabled, in test, off.
pub fn value_set(operation: Operation) -> bool
    ensures { result ≡ value_given operation }
{
    match operation {
        Operation::Disable(_) | Operation::Test(_) => true,
        Operation::Delays(on) => !on,
        _ => false,
    }
}
