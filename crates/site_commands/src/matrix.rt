//! Which outputs each zone asks for where it alone is released.

ghost use Rattle.std.specs.Prelude.{◌≡◌, ◌≤◌, ◌++◌, [], ℕ, Bool, IfOk, Some, codes, if◌then◌else◌};
ghost use Rattle.cause_effect.specs.Solutions.{IsSolution};
ghost use Rattle.cause_effect.specs.Stands.{IsPlanOf};
ghost use Rattle.marker_table.specs.Equations.{values_of};
ghost use Rattle.site_commands.specs.Matrix.{IsMatrix, line_of_zone, names_asked, released_alone as facts_of_zone};
ghost use Rattle.site_types.specs.Valid.{IsValid};

use cause_effect::{Facts, Plan, Values};
use site_types::{Output, Site, Zone, with_bit_32};
use std::alloc::Global;
use tick_units::{Items, NoMemory};

/// The text of the matrix: a line for each zone, with its name and those of the outputs.
pub fn matrix_of(alloc: Global, site: &Site, plan: &Plan) -> Result<Items<u8>, NoMemory>
    requires valid { IsValid site.now }
    requires plan { IsPlanOf site.now plan.now }
    ensures { IfOk result (λ text. IsMatrix site.now text) }
{
    let mut text = Vec::new(alloc);
    for zone in site.zones.as_slice() {
        push_zone(site, plan, zone, &mut text)?;
    }
    Ok(Items::from_vec(text))
}

// Puts the line of a zone behind a text.
fn push_zone(site: &Site, plan: &Plan, zone: &Zone, text: &mut Vec<u8>) -> Result<(), NoMemory>
    requires panel { (1 ≤ zone.now.panel) × (zone.now.panel ≤ 8) }
    requires number { (1 ≤ zone.now.number) × (zone.now.number ≤ 32) }
    requires plan { IsPlanOf site.now plan.now }
    ensures { IfOk result (λ _. (values : ℕ → Bool)
        → IsSolution site.now (facts_of_zone zone.now) values → text.new.items ≡ text.old.items
        ++ line_of_zone site.now values (Some zone.now)) }
{
    let mut values = Values::none();
    plan.solve(&released_alone(zone), &mut values);
    text.extend_from_slice(zone.name.as_str().as_bytes())?;
    push_names(site.outputs.as_slice(), &values, text)?;
    text.extend_from_slice(b"\n")?;
    Ok(())
}

// The facts where one zone is released and nothing else is so.
fn released_alone(zone: &Zone) -> Facts
    requires panel { (1 ≤ zone.now.panel) × (zone.now.panel ≤ 8) }
    requires number { (1 ≤ zone.now.number) × (zone.now.number ≤ 32) }
    ensures { result ≡ facts_of_zone zone.now }
{
    let mut zones = [0; 8];
    zones[zone.panel as usize - 1] = with_bit_32(0, zone.number - 1, true);
    Facts {
        zones,
        manual: [0; 8],
        faults: 0,
    }
}

// Puts the names of the outputs that are asked for behind a text.
fn push_names(outputs: &[Output], values: &Values, text: &mut Vec<u8>) -> Result<(), NoMemory>
    ensures { IfOk result (λ _. text.new.items ≡ text.old.items
        ++ names_asked (values_of values.now) outputs.now) }
{
    for output in outputs {
        push_name(output, values.is_true(output.marker), text)?;
    }
    Ok(())
}

// Puts the name of an output behind a text, with a space before it, if it is asked for.
fn push_name(output: &Output, asked: bool, text: &mut Vec<u8>) -> Result<(), NoMemory>
    ensures { IfOk result (λ _. text.new.items ≡ text.old.items
        ++ (if asked then codes " " ++ output.now.name.bytes else [])) }
{
    if asked {
        text.extend_from_slice(b" ")?;
        text.extend_from_slice(output.name.as_str().as_bytes())?;
    }
    Ok(())
}
