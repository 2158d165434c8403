ghost use Rattle.std.specs.Prelude.{◌≡◌};
ghost use Rattle.settings_shown.specs.OnFaces.{GivesInForce, with_masks};
ghost use Rattle.site_types.specs.Changes.{IsPanelNumber};

use face_text::Face;
use site_types::{Retained, has_bit_8};

/// Puts what settings have of a panel on a face, and leaves all else of it.
pub fn show_settings(settings: &Retained, panel: u8, face: &mut Face)
    requires { IsPanelNumber panel }
    ensures masks { face.new ≡ with_masks settings.now panel face.old }
    ensures in_force { GivesInForce settings.now panel face.old face.new }
{
    let place = panel as usize - 1;
    face.points_off = settings.points[place];
    face.zones_off = settings.zones[place];
    face.outputs_off = settings.outputs[place];
    face.test = settings.tests[place];
    face.delays_off = has_bit_8(settings.delays_off, panel - 1);
}
