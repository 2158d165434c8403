//! Where the things of each panel begin in the lists of a site.

ghost use Rattle.std.specs.Prelude.{◌≡◌, ◌≤◌, ◌==◌, ℕ, false, take};
ghost use Rattle.std.specs.List.{list_any};
ghost use Rattle.face_text.specs.NextNames.{AreNamedBehind};
ghost use Rattle.face_text.specs.Starts.{ArePassed};
ghost use Rattle.site_types.specs.declared.site.Site.{Site as SiteOf};

use crate::first_names::{outputs_before, points_before, zones_before};
use crate::group::Group;
use site_types::{Point, Site};

/// How many things of each list of a site stand before all those of a panel, and of its points before all those of a
/// loop. Panel 1 and loop 1 stand first. It is found once for a site, so that the names of what changed are looked for
/// from there on.
#[derive(Clone, Copy, Debug)]
pub struct Starts {
    zones: [usize; 8],
    points: [[usize; 4]; 8],
    outputs: [usize; 8],
}

impl Starts {
    /// Of any site: no thing is passed.
    pub fn none() -> Starts
        ensures { (site : SiteOf) → ArePassed site result }
    {
        Starts {
            zones: [0; 8],
            points: [[0; 4]; 8],
            outputs: [0; 8],
        }
    }

    /// Of a site. Each list is looked at once for each panel, the points once for each loop, up to the first one.
    pub fn of(site: &Site) -> Starts
        ensures { ArePassed site.now result }
    {
        let mut starts = Starts::none();
        for before in 0..8 {
            let place = before as usize;
            let panel = before + 1;
            starts.zones[place] = zones_before(site.zones.as_slice(), panel);
            starts.points[place] = before_loops(site.points.as_slice(), panel);
            starts.outputs[place] = outputs_before(site.outputs.as_slice(), panel);
        }
        starts
    }

    /// How many things of a group's list, from its beginning, needn't be looked at for the names of a panel's group.
    pub fn start(&self, panel: u8, group: Group) -> usize
        ensures { (site : SiteOf) → ArePassed site self.now
            → AreNamedBehind result site panel group 1 }
    {
        match group {
            Group::Zones(other) | Group::Firsts(other) => start_of(&self.zones, other),
            Group::Missing(line) | Group::PointsOff(line) => start_on(&self.points, panel, line),
            Group::Unconfirmed | Group::Outputs | Group::Confirmed | Group::OutputsOff => {
                start_of(&self.outputs, panel)
            }
            Group::ZonesOff | Group::Tests => start_of(&self.zones, panel),
            Group::Broken | Group::Shorted | Group::Supplies | Group::Silent | Group::Links => 0,
        }
    }
}

ghost use Rattle.std.specs.Prelude.{◌&&◌};
ghost use Rattle.face_text.specs.Starts.{start_in, start_on as on_loop};
ghost use Rattle.site_types.specs.declared.point.Point.{Point as PointPlan};

// How many points stand before all those of each loop of a panel.
fn before_loops(points: &[Point], panel: u8) -> [usize; 4]
    ensures { (line : ℕ) → list_any (λ (point : PointPlan). (point.panel == panel)
        && (point.line == line)) (take (start_in result line) points.now) ≡ false }
{
    [
        points_before(points, panel, 1),
        points_before(points, panel, 2),
        points_before(points, panel, 3),
        points_before(points, panel, 4),
    ]
}

// The start of a loop, or none where no site has the panel or its loop.
fn start_on(starts: &[[usize; 4]; 8], panel: u8, line: u8) -> usize
    ensures { result ≡ on_loop starts.now panel line }
{
    if 1 <= panel && panel <= 8 {
        start_of(&starts[panel as usize - 1], line)
    } else {
        0
    }
}

// What stands for a number in a list, the first for 1, or nothing for one that it hasn't.
fn start_of(starts: &[usize], number: u8) -> usize
    ensures { result ≡ start_in starts.now number }
{
    if 1 <= number && number as usize <= starts.len() {
        starts[number as usize - 1]
    } else {
        0
    }
}
