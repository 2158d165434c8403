//! All that a site says, with names in place of places.

use anyhow::Result;
use site_types::{
    Combine, LoopPlan, Marker, Named, Output, OutputKind, Point, Rule, Site, Term, Thing, Zone,
};
use std::alloc::Global;
use trial_cases::Lines;

/// The site key by key, a line for each thing.
pub fn shown(alloc: Global, site: &Site) -> Result<String> {
    let mut lines = Lines::new(alloc);
    say_top(&mut lines, site);
    for plan in site.loops.as_slice() {
        say_loop(&mut lines, plan);
    }
    for zone in site.zones.as_slice() {
        say_zone(&mut lines, site, zone);
    }
    for point in site.points.as_slice() {
        say_point(&mut lines, site, point);
    }
    for output in site.outputs.as_slice() {
        say_output(&mut lines, site, output);
    }
    for marker in site.markers.as_slice() {
        say_marker(&mut lines, site, marker);
    }
    for named in site.names.as_slice() {
        say_name(&mut lines, named);
    }
    lines.done()
}

// Words, and behind them a name.
fn say_named(lines: &mut Lines, words: &str, name: &str) {
    lines.say(words);
    lines.say(name);
}

fn say_top(lines: &mut Lines, site: &Site) {
    lines.count("format ", site.format as u64);
    say_named(lines, " site ", site.name.as_str());
    lines.count(" panels ", site.panels as u64);
    lines.count("\nwaits mains ", site.waits.mains as u64);
    lines.count(" standby ", site.waits.standby as u64);
    lines.count(" voltage ", site.waits.voltage as u64);
    lines.count(" charger ", site.waits.charger as u64);
    lines.say("\n");
    for (level, codes) in (2u64..).zip(site.codes.iter()) {
        for digest in codes.as_slice() {
            lines.count("level", level);
            lines.say(" ");
            lines.hex(digest.as_slice());
            lines.say("\n");
        }
    }
}

fn say_loop(lines: &mut Lines, plan: &LoopPlan) {
    lines.count("loop panel ", plan.panel as u64);
    lines.count(" loop ", plan.line as u64);
    lines.count(" last ", plan.last as u64);
    lines.say(" isolators [");
    let mut comma = "";
    for isolator in plan.isolators.as_slice() {
        lines.count(comma, *isolator as u64);
        comma = ", ";
    }
    lines.say("]\n");
}

fn say_zone(lines: &mut Lines, site: &Site, zone: &Zone) {
    say_named(lines, "zone ", zone.name.as_str());
    lines.count(" panel ", zone.panel as u64);
    lines.count(" number ", zone.number as u64);
    say_rule(lines, zone.rule);
    if let Some(partner) = zone.partner {
        say_named(lines, " partner ", zone_name(site, partner));
    }
    lines.say("\n");
}

fn say_rule(lines: &mut Lines, rule: Rule) {
    match rule {
        Rule::Plain => lines.say(" type none"),
        Rule::A { verify, within } => {
            lines.count(" type a verify ", verify as u64);
            lines.count(" within ", within as u64);
        }
        Rule::B { within } => lines.count(" type b within ", within as u64),
        Rule::C => lines.say(" type c"),
    }
}

fn say_point(lines: &mut Lines, site: &Site, point: &Point) {
    say_named(lines, "point ", point.name.as_str());
    lines.count(" panel ", point.panel as u64);
    lines.count(" loop ", point.line as u64);
    lines.count(" address ", point.address as u64);
    say_named(lines, " zone ", zone_name(site, point.zone));
    lines.say(if point.manual {
        " manual\n"
    } else {
        " detector\n"
    });
}

fn say_output(lines: &mut Lines, site: &Site, output: &Output) {
    say_named(lines, "output ", output.name.as_str());
    lines.count(" panel ", output.panel as u64);
    lines.count(" number ", output.number as u64);
    lines.say(match output.kind {
        OutputKind::Sounder => " sounder",
        OutputKind::Routing => " routing",
        OutputKind::Protection => " protection",
        OutputKind::Relay => " relay",
    });
    say_named(lines, " when ", marker_name(site, output.marker));
    lines.count(" delay ", output.delay as u64);
    lines.say("\n");
}

fn say_marker(lines: &mut Lines, site: &Site, marker: &Marker) {
    say_named(lines, "marker ", marker.name.as_str());
    match marker.combine {
        Combine::All => lines.say(" all"),
        Combine::Any => lines.say(" any"),
        Combine::AtLeast(count) => lines.count(" atleast ", count as u64),
    }
    for term in marker.terms.as_slice() {
        match *term {
            Term::Zone(zone) => say_named(lines, " zone:", zone_name(site, zone)),
            Term::Manual(zone) => say_named(lines, " manual:", zone_name(site, zone)),
            Term::Fault(panel) => lines.count(" fault:", panel as u64),
            Term::Marker(marker) => say_named(lines, " marker:", marker_name(site, marker)),
        }
    }
    lines.say("\n");
}

fn say_name(lines: &mut Lines, named: &Named) {
    say_named(lines, "name ", named.name.as_str());
    match named.thing {
        Thing::Point(place) => lines.count(" point ", place as u64),
        Thing::Zone(place) => lines.count(" zone ", place as u64),
        Thing::Output(place) => lines.count(" output ", place as u64),
        Thing::Marker(place) => lines.count(" marker ", place as u64),
    }
    lines.say("\n");
}

fn zone_name(site: &Site, place: u16) -> &str {
    match site.zones.get(place as usize) {
        Some(zone) => zone.name.as_str(),
        None => "nobody",
    }
}

fn marker_name(site: &Site, place: u16) -> &str {
    match site.markers.get(place as usize) {
        Some(marker) => marker.name.as_str(),
        None => "nobody",
    }
}
