ghost use Rattle.panel_laws.specs.ShownSettings.{SettingsAreShown, AcceptedIsShown};

/// A face shows exactly those of its panel's settings that are in force at the tick: its disabled points, zones and
/// outputs, its zones in test, and that its delays are off.
pub fn settings_are_shown()
    ensures { SettingsAreShown }
{}

/// **What was accepted is shown**: from the second tick after its own on the face of its panel shows a setting as an
/// accepted operation set it, until another operation on the setting is done, where no turn of Keep failed in the
/// operation's tick and the next one. So a disablement is shown, a zone in test, and delays that are off.
pub fn accepted_is_shown()
    ensures { AcceptedIsShown }
{}
