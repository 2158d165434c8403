ghost use Rattle.std.specs.Prelude.{◌≡◌, ◌-◌, ◌<◌, ◌∷◌, ℕ, true, false};
ghost use Rattle.std.specs.Prelude.{IfOk, Some, option_copied, map, slice_get, slice_index};
ghost use Rattle.site_types.specs.Bits.{has_bit, no_set};
ghost use Rattle.site_types.specs.Valid.{IsValid};
ghost use Rattle.answer_lanes.specs.Blocks.{block_finding_at, eight_finding_at};
ghost use Rattle.answer_lanes.specs.Points.{finding_at};
ghost use Rattle.answer_lanes.specs.Runs.{HasShortCount, items_of};

use crate::asked::Asked;
use crate::loop_address::LoopAddress;
use crate::point_sets::{put, without};
use crate::point_switch::PointSwitch;
use crate::told_missing::ToldMissing;
use answer_lanes::{FindingBlock, FindingGroup, Run, Several, blocks_of_panel};
use coincidence_rules::Finding;
use site_types::{Item, Operation, Point, PointSet, Retained, Site, Zone, has_bit_32};
use std::alloc::Global;
use tick_units::{NoMemory, Tick};

/// The points of a panel as sets: the missing ones, and those that are disabled or in a disabled zone.
#[derive(Drop)]
pub struct Points {
    /// Where each point of the site stands, by its place, if it is of this panel.
    addresses: Vec<Option<LoopAddress>>,
    /// The panel's points of each zone, by the zone's place.
    of_zones: Vec<PointSet>,
    /// The points whose last three answers were silent.
    missing: PointSet,
    /// Whether these may be others than when they were shown last.
    changed: bool,
    /// What the last finding of each point of the site told of it.
    told: ToldMissing,
    off: PointSwitch,
    zone_off: PointSwitch,
}

impl Points {
    ghost use Rattle.panel_conditions.specs.PointSets.{address_in};
    ghost use Rattle.panel_conditions.specs.Parts.{item_set, points_done, points_shown, points_taken};
    ghost use Rattle.panel_conditions.specs.Changes.{TakesPoints, WatchesPointsMore};
    ghost use Rattle.panel_conditions.specs.Stands.{WatchesPoints};
    ghost use Rattle.panel_conditions.specs.Told.{block_run, eight_run};

    /// The points of a panel, of which nothing was found, with what is retained in force.
    pub fn new(alloc: Global, site: &Site, panel: u8, kept: &Retained) -> Result<Points, NoMemory>
        ensures { IfOk result (λ points. IsValid site.now
            → WatchesPoints site.now kept.now panel [] [] points) }
    {
        let addresses = addresses_of(alloc, site, panel)?;
        let of_zones = sets_of_zones(alloc, site, panel)?;
        let off = PointSwitch::new(points_that(site, panel, kept, Asked::Disabled));
        let zone_off = PointSwitch::new(points_that(site, panel, kept, Asked::ZoneDisabled));
        let blocks = blocks_of_panel(alloc, site.points.as_slice(), panel)?;
        let told = ToldMissing::none(alloc, site.points.len(), blocks.as_slice())?;
        Ok(Points {
            addresses,
            of_zones,
            missing: no_points(),
            changed: false,
            told,
            off,
            zone_off,
        })
    }

    /// Takes note of a finding.
    pub fn take(&mut self, finding: &Finding)
        ensures watches { WatchesPointsMore self.old (finding.now ∷ []) self.new }
        ensures off { (self.new.off ≡ self.old.off) × (self.new.zone_off ≡ self.old.zone_off) }
        ensures missing { self.new.changed ≡ false
            → (self.old.changed ≡ false) × (self.new.missing ≡ self.old.missing) }
    {
        let place = finding.point as usize;
        if self.told.has(place, finding.missing) {
            return;
        }
        self.put_missing(finding);
        self.told.mark(place, finding.missing);
    }

    /// Takes note of the findings of a run. Where each tells of its point what was told of it last, nothing changes.
    pub fn take_run(&mut self, run: &Run<FindingGroup>)
        requires { HasShortCount run.now }
        ensures watches { WatchesPointsMore self.old (items_of finding_at run.now) self.new }
        ensures off { (self.new.off ≡ self.old.off) × (self.new.zone_off ≡ self.old.zone_off) }
        ensures missing { self.new.changed ≡ false
            → (self.old.changed ≡ false) × (self.new.missing ≡ self.old.missing) }
    {
        if self.told.has_run(run) {
            return;
        }
        for place in run.taken..run.taken + run.count {
            self.take(&run.item(place));
        }
    }

    /// Takes note of the findings of a whole block. Where each tells of its point what was told of it last, nothing
    /// changes.
    pub fn take_block(&mut self, block: &FindingBlock)
        ensures { TakesPoints (items_of block_finding_at (block_run block.now)) self.old self.new }
    {
        if self.told.has_block(block) {
            return;
        }
        self.take_eights(block);
    }

    // Takes note of the findings of a whole block, one eight behind the other. It stands apart from the usual way, so
    // that this need not share registers with it.
    #[inline(never)]
    fn take_eights(&mut self, block: &FindingBlock)
        ensures { TakesPoints (items_of block_finding_at (block_run block.now)) self.old self.new }
    {
        self.take_eight(block, 0);
        self.take_eight(block, 1);
        self.take_eight(block, 2);
        self.take_eight(block, 3);
    }

    // Takes note of the findings of one of a block's eights. Where each tells of its point what was told of it last,
    // nothing changes.
    fn take_eight(&mut self, block: &FindingBlock, number: u8)
        requires { number < 4 }
        ensures { TakesPoints (items_of eight_finding_at (eight_run block.now number)) self.old
            self.new }
    {
        if self.told.has_eight(block, number) {
            return;
        }
        let eight = block.eight(number);
        for place in 0..8u8 {
            self.take(&eight.item_at(place));
        }
    }

    // Puts the point of a finding among the missing ones, or takes it out.
    fn put_missing(&mut self, finding: &Finding)
        ensures { self.new ≡ points_taken finding.now self.old }
    {
        let address = self.address_of(finding.point);
        put(&mut self.missing, address, finding.missing);
        self.changed = true;
    }

    /// Takes note of an operation that was done in a tick.
    pub fn apply(&mut self, operation: &Operation, at: Tick)
        ensures { self.new ≡ points_done operation.now at self.old }
    {
        match *operation {
            Operation::Disable(item) => self.set_off(item, true, at),
            Operation::Enable(item) => self.set_off(item, false, at),
            _ => {}
        }
    }

    /// Whether the missing points may be others than when they were shown last.
    pub fn has_changed(&self) -> bool
        ensures { result ≡ self.now.changed }
    {
        self.changed
    }

    /// Takes note that the missing points are shown as they are.
    pub fn note_shown(&mut self)
        ensures { self.new ≡ record self.old { changed = false } }
    {
        self.changed = false;
    }

    /// The points that are shown as missing at a tick.
    pub fn showing(&self, now: Tick) -> PointSet
        ensures { result ≡ points_shown now.0 self.now }
    {
        let off = self.off.at(now);
        let zone_off = self.zone_off.at(now);
        without(&without(&self.missing, &off), &zone_off)
    }

    // A point or a zone is disabled or enabled in a tick.
    fn set_off(&mut self, item: Item, off: bool, at: Tick)
        ensures { self.new ≡ item_set item off at self.old }
    {
        match item {
            Item::Point(point) => {
                let address = self.address_of(point);
                self.off.put(address, off, at);
            }
            Item::Zone(zone) => {
                self.zone_off.put_all(set_at(&self.of_zones, zone), off, at);
            }
            Item::Output(_) => {}
        }
    }

    // Where the point at a place stands, if it is of this panel.
    fn address_of(&self, point: u16) -> Option<LoopAddress>
        ensures { result ≡ address_in (slice_get self.now.addresses.items point) }
    {
        match self.addresses.get(point as usize) {
            Some(address) => *address,
            None => None,
        }
    }
}

ghost use Rattle.std.specs.Prelude.{[], length, option_map};
ghost use Rattle.site_types.specs.Changes.{HasOwnPlaces, IsNumber, IsPanelNumber};
ghost use Rattle.site_types.specs.Bits.{IsPlace};
ghost use Rattle.site_types.specs.Done.{kept_point, kept_zone};
ghost use Rattle.panel_conditions.specs.PointSets.{loop_address, put_at_place};
ghost use Rattle.panel_conditions.specs.Points.{points_where};
ghost use Rattle.panel_conditions.specs.Parts.{is_asked, is_so as is_so_of};
ghost use Rattle.panel_conditions.specs.Stands.{AreZoneSets, HasPlaces, HasZoneNumber};

fn addresses_of(alloc: Global, site: &Site, panel: u8) -> Result<Vec<Option<LoopAddress>>, NoMemory>
    ensures { IfOk result
        (λ addresses. addresses.items ≡ map (loop_address panel) site.now.points) }
{
    let points = site.points.as_slice();
    let points = site.points.as_slice();
    let mut addresses = Vec::with_capacity(alloc, points.len())?;
    for point in points {
        addresses.push(address_at(panel, point))?;
    }
    Ok(addresses)
}

fn address_at(panel: u8, point: &Point) -> Option<LoopAddress>
    ensures { result ≡ loop_address panel point.now }
{
    if point.panel == panel {
        Some(LoopAddress {
            line: point.line,
            address: point.address,
        })
    } else {
        None
    }
}

fn set_at(sets: &[PointSet], zone: u16) -> Option<&PointSet>
    ensures { option_copied result ≡ slice_get sets.now zone }
{
    sets.get(zone as usize)
}

fn no_points() -> PointSet
    ensures { result ≡ no_set }
{
    PointSet { loops: [[0; 2]; 4] }
}

// For each zone of the site the panel's points of it.
fn sets_of_zones(alloc: Global, site: &Site, panel: u8) -> Result<Vec<PointSet>, NoMemory>
    ensures { IfOk result (λ sets. HasOwnPlaces site.now
        → AreZoneSets site.now panel (length site.now.points) sets.items) }
{
    let points = site.points.as_slice();
    let mut sets = vec![in alloc; no_points(); site.zones.len()]?;
    for point in points {
        put_into(&mut sets, point.zone as usize, address_at(panel, point));
    }
    Ok(sets)
}

// Puts the point of an address into the set at a place.
fn put_into(sets: &mut [PointSet], place: usize, address: Option<LoopAddress>)
    ensures each { (k : ℕ) → slice_get sets.new k
        ≡ option_map (put_at_place place address k) (slice_get sets.old k) }
    ensures count { length sets.new ≡ length sets.old }
{
    if place < sets.len() {
        let set = &mut sets[place];
        put(set, address, true);
    }
}

// The points of a panel of which something is so.
fn points_that(site: &Site, panel: u8, kept: &Retained, asked: Asked) -> PointSet
    ensures { HasOwnPlaces site.now
        → result ≡ points_where site.now panel
        (λ place. is_asked site.now kept.now asked (slice_get site.now.points place)) }
{
    let points = site.points.as_slice();
    let mut set = no_points();
    for point in points {
        put(
            &mut set,
            address_at(panel, point),
            is_so(asked, site, kept, point),
        );
    }
    set
}

fn is_so(asked: Asked, site: &Site, kept: &Retained, point: &Point) -> bool
    ensures { HasPlaces site.now point.now → result ≡ is_so_of site.now kept.now asked point.now }
{
    match asked {
        Asked::Disabled => is_point_off(kept, point),
        Asked::ZoneDisabled => is_zone_off(kept, site.zones.get(point.zone as usize)),
    }
}

// Whether a point is retained as disabled. Only a point with a place in what is retained can be.
fn is_point_off(kept: &Retained, point: &Point) -> bool
    ensures { IsPanelNumber point.now.panel → IsPlace point.now.line point.now.address
        → result ≡ kept_point kept.now (Some point.now) }
{
    let at_panel = point.panel >= 1 && point.panel <= 8;
    let on_line = point.line >= 1 && point.line <= 4;
    let at_address = point.address >= 1 && point.address <= 192;
    at_panel
        && on_line
        && at_address
        && kept.points[point.panel as usize - 1].contains(point.line, point.address)
}

// Whether a zone is retained as disabled. Only a zone with a place in what is retained can be.
fn is_zone_off(kept: &Retained, zone: Option<&Zone>) -> bool
    ensures { HasZoneNumber (option_copied zone.entry)
        → result ≡ kept_zone kept.now (option_copied zone.entry) }
{
    match zone {
        None => false,
        Some(zone) => is_off(kept, zone.panel, zone.number),
    }
}

fn is_off(kept: &Retained, panel: u8, number: u8) -> bool
    ensures { IsPanelNumber panel → IsNumber number
        → result ≡ has_bit (slice_index kept.now.zones (panel - 1)) (number - 1) }
{
    let at_panel = panel >= 1 && panel <= 8;
    let has_number = number >= 1 && number <= 32;
    at_panel && has_number && has_bit_32(kept.zones[panel as usize - 1], number - 1)
}
