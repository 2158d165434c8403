//! The zones and the outputs of a site by panel and number.

ghost use Rattle.std.specs.Prelude.{IfOk};
ghost use Rattle.site_types.specs.Valid.{IsValid};
ghost use Rattle.panel_audit.specs.Numbers.{AreOutputNumbers, AreZoneNumbers};

use crate::numbered::Numbered;
use site_types::Site;
use std::alloc::Global;
use tick_units::NoMemory;

/// The numbers of the zones, by their places.
pub(crate) fn zone_numbers(alloc: Global, site: &Site) -> Result<Vec<Numbered>, NoMemory>
    requires { IsValid site.now }
    ensures { IfOk result (λ things. AreZoneNumbers site.now.zones things.items) }
{
    let mut things = Vec::new(alloc);
    for place in 0..site.zones.len() {
        let zone = &site.zones.as_slice()[place];
        things.push(Numbered {
            panel: zone.panel,
            number: zone.number,
        })?;
    }
    Ok(things)
}

/// The numbers of the outputs, by their places.
pub(crate) fn output_numbers(alloc: Global, site: &Site) -> Result<Vec<Numbered>, NoMemory>
    requires { IsValid site.now }
    ensures { IfOk result (λ things. AreOutputNumbers site.now.outputs things.items) }
{
    let mut things = Vec::new(alloc);
    for place in 0..site.outputs.len() {
        let output = &site.outputs.as_slice()[place];
        things.push(Numbered {
            panel: output.panel,
            number: output.number,
        })?;
    }
    Ok(things)
}
