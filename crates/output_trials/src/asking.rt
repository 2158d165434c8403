//! Which cycle a site's markers have, and what its outputs are asked for.

ghost use Rattle.site_types.specs.Valid.{IsValid};

use anyhow::{Result, bail};
use cause_effect::{Facts, Plan, PlanRefusal, Values, compile};
use site_types::{Site, with_bit_8};
use std::alloc::Global;
use trial_cases::{Lines, say_outputs, with_number, zone_of};

/// What is known of all panels, and of what is so by hand.
#[derive(Clone, Copy, Default)]
struct Known {
    facts: Facts,
    by_hand: Facts,
}

/// What the outputs of panels 1 and 2 are asked for, and what by hand.
pub(crate) fn ask(alloc: Global, site: &Site, line: &str) -> Result<String>
    requires { IsValid site.now }
{
    let mut known = Known::default();
    for words in line.split(", ") {
        if learn(site, &mut known, words).is_none() {
            bail!("nothing that markers depend on: {words}");
        }
    }
    let Ok(plan) = compile(alloc, site) else {
        bail!("no plan");
    };
    let mut lines = Lines::new(alloc);
    for panel in 1..3 {
        say_asked(&mut lines, site, &plan, panel, &known);
    }
    lines.done()
}

// Learns what a step says: `alarm hall lab`, `call points lab`, `fault 1` and `by hand lab`, or `nothing`.
fn learn(site: &Site, known: &mut Known, words: &str) -> Option<()>
    requires { IsValid site.now }
{
    match words.split_once(' ') {
        Some(("alarm", names)) => known.facts.zones = zones_of(site, names)?,
        Some(("call", rest)) => known.facts.manual = zones_of(site, rest.strip_prefix("points ")?)?,
        Some(("by", rest)) => known.by_hand.zones = zones_of(site, rest.strip_prefix("hand ")?)?,
        Some(("fault", panel)) => known.facts.faults = panel_bit(byte_of(panel)?),
        _ => {
            if words != "nothing" {
                return None;
            }
        }
    }
    Some(())
}

fn panel_bit(panel: u8) -> u8 {
    if panel >= 1 && panel <= 8 {
        with_bit_8(0, panel - 1, true)
    } else {
        0
    }
}

// The masks of zones by panel. A zone that the site hasn't stands as its panel and number, `1.3`.
fn zones_of(site: &Site, names: &str) -> Option<[u32; 8]>
    requires { IsValid site.now }
{
    let mut zones = [0; 8];
    for name in names.split(' ') {
        let (panel, number) = place_of(site, name)?;
        let mask = zones.get_mut((panel as usize).wrapping_sub(1))?;
        *mask = with_number(*mask, number);
    }
    Some(zones)
}

fn place_of(site: &Site, name: &str) -> Option<(u8, u8)>
    requires { IsValid site.now }
{
    match name.split_once('.') {
        Some((panel, number)) => Some((byte_of(panel)?, byte_of(number)?)),
        None => {
            let zone = zone_of(site, name)?;
            Some((zone.panel, zone.number))
        }
    }
}

fn byte_of(word: &str) -> Option<u8> {
    word.parse().ok()
}

fn say_asked(lines: &mut Lines, site: &Site, plan: &Plan, panel: u8, known: &Known) {
    let mut normal = Values::none();
    let mut manual = Values::none();
    plan.solve(&known.facts, &mut normal);
    plan.solve(&known.by_hand, &mut manual);
    let requests = plan.requests(panel, &normal, &manual);
    lines.count("    panel ", panel as u64);
    lines.say(": ");
    say_outputs(lines, site, panel, requests.asked);
    if requests.manual != 0 {
        lines.say(", by hand ");
        say_outputs(lines, site, panel, requests.manual);
    }
    lines.say("\n");
}

/// The markers that depend on each other in a circle, in that order.
pub(crate) fn cycle(alloc: Global, site: &Site) -> Result<String>
    requires { IsValid site.now }
{
    match compile(alloc, site) {
        Ok(_) => Ok("    no cycle\n".to_string(alloc)?),
        Err(PlanRefusal::NoMemory) => bail!("no memory"),
        Err(PlanRefusal::Cycle { markers }) => tell_cycle(alloc, site, markers.as_slice()),
    }
}

fn tell_cycle(alloc: Global, site: &Site, markers: &[u16]) -> Result<String> {
    let mut lines = Lines::new(alloc);
    lines.say("    cycle");
    for place in markers {
        lines.say(" ");
        match site.markers.get(*place as usize) {
            Some(marker) => lines.say(marker.name.as_str()),
            None => lines.number(*place as u64),
        }
    }
    lines.say("\n");
    lines.done()
}
