//! Which outputs of a panel are sounders.

ghost use Rattle.std.specs.Prelude.{◌≡◌};
ghost use Rattle.site_types.specs.Valid.{IsValid};
ghost use Rattle.panel_rules.specs.Outputs.{is_sounder, outputs_where};
ghost use Rattle.output_drive.specs.Sounders.{is_numbered_sounder};

use output_lists::output_of;
use site_types::{MOST_OUTPUTS, OutputKind, Site, mask_from_32};

/// The sounders of a panel, bit `number - 1` each.
pub(crate) fn sounders_of(site: &Site, panel: u8) -> u32
    requires { IsValid site.now }
    ensures { result ≡ outputs_where site.now panel (is_sounder site.now) }
{
    let mut sounders = [false; 32];
    for place in 0..MOST_OUTPUTS {
        sounders[place as usize] = is_numbered_sounder(site, panel, place + 1);
    }
    mask_from_32(&sounders)
}

// Whether a panel has a sounder with a number.
fn is_numbered_sounder(site: &Site, panel: u8, number: u8) -> bool
    ensures { result ≡ is_numbered_sounder site.now panel number }
{
    match output_of(site, panel, number) {
        Some(output) => matches!(output.kind, OutputKind::Sounder),
        None => false,
    }
}
