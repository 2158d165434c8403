ghost use Rattle.site_types.specs.Valid.{IsValid};

use anyhow::{Result, bail};
use panel_conditions::{Finding, Outside};
use site_types::{Event, Operation, Site, SupplyKind, Thing, with_bit_8};
use tick_units::Tick;
use trial_cases::{Step, event_of, with_number, zone_of};

/// What comes to a Hold.
#[derive(Drop)]
pub(crate) enum HoldStep {
    Found(Finding),
    /// What is told from outside of the points from now on.
    Outside(Outside),
    Done(Operation),
}

impl HoldStep {
    /// The step that words spell: `found d9 confirms hall`, `loop 1 shorted`, or the line of a record for a
    /// supply or an operation.
    pub(crate) fn read(site: &Site, outside: &Outside, step: &Step) -> Result<HoldStep>
        requires { IsValid site.now }
    {
        let own = match step.words.split_once(' ') {
            Some(("found", words)) => found(site, step.tick, words),
            Some(("loop", words)) => looped(outside, words),
            _ => befallen(site, outside, step.words),
        };
        match own {
            Some(step) => Ok(step),
            None => bail!("nothing that comes to Hold: {}", step.words),
        }
    }
}

// The step of an event.
fn befallen(site: &Site, outside: &Outside, words: &str) -> Option<HoldStep>
    requires { IsValid site.now }
{
    match event_of(site, words) {
        Ok(Event::Supply { kind, bad, .. }) => {
            Some(HoldStep::Outside(with_supply(outside, kind, bad)))
        }
        Ok(Event::Op { operation, .. }) => Some(HoldStep::Done(operation)),
        _ => None,
    }
}

// What an answer of a point in a tick means: that it counts for its zone, that it confirms zones, that it is
// one by hand, or that the point is missing.
fn found(site: &Site, tick: u64, words: &str) -> Option<HoldStep>
    requires { IsValid site.now }
{
    let (name, means) = words.split_once(' ')?;
    let Some(Thing::Point(place)) = site.find(name.as_bytes()) else {
        return None;
    };
    let point = site.points.get(place as usize)?;
    let zone = site.zones.get(point.zone as usize)?;
    let mut finding = Finding {
        stamp: Tick(tick),
        point: place,
        ..Finding::default()
    };
    add_meaning(site, means, with_number(0, zone.number), &mut finding)?;
    Some(HoldStep::Found(finding))
}

// What is so of the point's own zone and of others.
fn add_meaning(site: &Site, means: &str, own: u32, finding: &mut Finding) -> Option<()>
    requires { IsValid site.now }
{
    if means == "missing" {
        finding.missing = true;
        return Some(());
    }
    finding.counted = own;
    if means == "by hand" {
        finding.confirmed = own;
        finding.manual = own;
        finding.released = own;
    } else if means != "counts" {
        let confirmed = zones_of(site, means.strip_prefix("confirms ")?)?;
        finding.confirmed = confirmed;
        finding.released = confirmed;
    }
    Some(())
}

// The zones of these names.
fn zones_of(site: &Site, names: &str) -> Option<u32>
    requires { IsValid site.now }
{
    let mut zones = 0;
    for name in names.split(' ') {
        zones = with_number(zones, zone_of(site, name)?.number);
    }
    Some(zones)
}

// What is told once a loop is in this state too.
fn looped(outside: &Outside, words: &str) -> Option<HoldStep> {
    let (number, state) = words.split_once(' ')?;
    let number: u8 = number.parse().ok()?;
    if number < 1 || number > 4 {
        return None;
    }
    let mut told = *outside;
    let mask = match state {
        "broken" => &mut told.broken,
        "shorted" => &mut told.shorted,
        _ => return None,
    };
    *mask = with_bit_8(*mask, number - 1, true);
    Some(HoldStep::Outside(told))
}

// What is told once a supply is in this state.
fn with_supply(outside: &Outside, kind: SupplyKind, bad: bool) -> Outside {
    let bit = match kind {
        SupplyKind::Mains => 0,
        SupplyKind::Standby => 1,
        SupplyKind::Voltage => 2,
        SupplyKind::Charger => 3,
    };
    Outside {
        supply: with_bit_8(outside.supply, bit, bad),
        ..*outside
    }
}
