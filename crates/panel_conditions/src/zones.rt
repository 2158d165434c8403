ghost use Rattle.std.specs.Prelude.{◌≡◌, ◌-◌, ◌^◌, ◌<◌, ◌≤◌, ℕ, map, length, slice_get, bit_or, nat_lt};
ghost use Rattle.std.specs.Prelude.{if◌then◌else◌, IfOk, option_copied, option_map};
ghost use Rattle.coincidence_rules.specs.Places.{numbered};
ghost use Rattle.answer_lanes.specs.Blocks.{block_finding_at, eight_finding_at};
ghost use Rattle.answer_lanes.specs.Points.{finding_at};
ghost use Rattle.answer_lanes.specs.Runs.{HasShortCount, items_of};

use crate::next_bit::lowest_bit;
use crate::sign::Sign;
use crate::signs::Signs;
use crate::told_zones::{
    is_plain, is_shown, of_other_zones, of_own_zones, plain_zones, tells_any, told, told_finding,
};
use crate::zone_watch::ZoneWatch;
use answer_lanes::{FindingBlock, FindingGroup, Run, Told};
use coincidence_rules::Finding;
use site_types::{Operation, Rule, Site, Zone, with_bit_32};
use std::alloc::Global;
use tick_units::{NoMemory, Tick};

/// The zones of a panel by number: the first has number 1. A panel has 32 numbers.
///
/// What they show is drawn once in a turn: only a zone of which a finding or an operation told, or that is in
/// first state, may show anything new.
#[derive(Drop)]
pub struct Zones {
    watches: Vec<ZoneWatch>,
    /// What they showed when it was drawn last.
    signs: Signs,
    /// The zones that may show anything new.
    changed: u32,
    /// The tick of the latest operation.
    moved: Tick,
}

impl Zones {
    ghost use Rattle.panel_conditions.specs.Parts.{drawn_mask, later_tick, signs_at, told_by, watch_shows, zone_done};
    ghost use Rattle.panel_conditions.specs.Parts.{Marks, TellsPlainly, told_finding, plain_told, zone_taken_at};
    ghost use Rattle.panel_conditions.specs.Changes.{TakesTold, ZonesTakeAll, WatchesZonesMore, ZonesStaySettled};
    ghost use Rattle.panel_conditions.specs.Stands.{Settled, ZonesTake, first_watch, are_first_watches};
    ghost use Rattle.panel_conditions.specs.Told.{block_run, eight_run};

    /// The zones of a panel, of which nothing was told.
    pub fn new(alloc: Global, site: &Site, panel: u8) -> Result<Zones, NoMemory>
        ensures { IfOk result (λ zones. (zones.watches.items ≡ are_first_watches site.now panel 32)
            × (zones.changed ≡ 2 ^ 32 - 1)) }
    {
        let mut watches = Vec::with_capacity(alloc, 32)?;
        for bit in 0..32u8 {
            watches.push(watch_of(site, panel, bit))?;
        }
        Ok(Zones {
            watches,
            signs: Signs::none(),
            changed: u32::MAX,
            moved: Tick(0),
        })
    }

    /// Takes note of the findings of a run. All that tell of zones tell the same of them at the same tick, so one is as
    /// good as all.
    pub fn take_run(&mut self, run: &Run<FindingGroup>)
        requires { HasShortCount run.now }
        ensures watches { WatchesZonesMore self.old (items_of finding_at run.now) self.new }
        ensures settled { ZonesStaySettled self.old self.new }
        ensures moved { self.new.moved ≡ self.old.moved }
    {
        if run.first.telling == 0 {
            return;
        }
        if !tells_any(run) {
            return;
        }
        let told = Told {
            counted: run.first.counted,
            confirmed: run.first.confirmed,
            manual: run.first.manual,
            released: run.first.released,
        };
        self.take_told(run.first.stamp, &told);
    }

    /// Takes note of the findings of a whole block, where any tells of zones. All have one stamp, so what its eights
    /// tell plainly is taken at once.
    pub fn take_block(&mut self, block: &FindingBlock)
        ensures { ZonesTakeAll (items_of block_finding_at (block_run block.now)) self.old self.new }
    {
        let [first, second, third, fourth] = block.telling;
        if first | second | third | fourth == 0 {
            return;
        }
        match plain_zones(block) {
            Some(zones) => self.take_plainly(block.stamp, zones),
            None => self.take_eights(block),
        }
    }

    // Takes note of the findings of a whole block, one eight behind the other. It stands apart from the usual way, so
    // that this need not share registers with it.
    #[inline(never)]
    fn take_eights(&mut self, block: &FindingBlock)
        ensures { ZonesTakeAll (items_of block_finding_at (block_run block.now)) self.old self.new }
    {
        self.take_eight(block, 0);
        self.take_eight(block, 1);
        self.take_eight(block, 2);
        self.take_eight(block, 3);
    }

    // Takes note of the findings of one of a block's eights: first of its own zones, then of the other ones.
    fn take_eight(&mut self, block: &FindingBlock, number: u8)
        ensures { ZonesTakeAll (items_of eight_finding_at (eight_run block.now number)) self.old
            self.new }
    {
        let eight = block.eight(number);
        self.take_run(&of_own_zones(&eight));
        self.take_run(&of_other_zones(&eight));
    }

    // Takes note of what findings to an asking tell of zones.
    fn take_told(&mut self, stamp: Tick, told: &Told)
        ensures { TakesTold (told_finding stamp told.now) self.old self.new }
    {
        if is_plain(told) {
            self.take_plainly(stamp, told.confirmed);
        } else {
            self.take_all(&told_finding(stamp, told));
        }
    }

    // Takes note of all that a finding tells of zones. It stands apart as well.
    #[inline(never)]
    fn take_all(&mut self, finding: &Finding)
        ensures { TakesTold finding.now self.old self.new }
    {
        self.take_each(finding);
        self.mark(finding);
    }

    // Takes note of findings of a stamp that confirm zones plainly.
    #[inline(never)]
    fn take_plainly(&mut self, stamp: Tick, zones: u32)
        ensures { TakesTold (told_finding stamp (plain_told zones)) self.old self.new }
    {
        self.take_plain(stamp, zones);
        self.mark_plain(zones);
    }

    // Takes note of findings of a stamp in each zone that they confirm plainly.
    fn take_plain(&mut self, stamp: Tick, zones: u32)
        ensures { ZonesTake (told_finding stamp (plain_told zones)) self.old self.new }
    {
        let mut left = zones;
        while left != 0 {
            let k = lowest_bit(left);
            self.confirm_at(k, stamp);
            left = with_bit_32(left, k, false);
        }
    }

    // Takes note of a finding in each zone of which it tells.
    fn take_each(&mut self, finding: &Finding)
        ensures { ZonesTake finding.now self.old self.new }
    {
        let mut left = told(finding);
        while left != 0 {
            let k = lowest_bit(left);
            self.take_at(k, finding);
            left = with_bit_32(left, k, false);
        }
    }

    // Marks zones that findings confirm plainly, where any of them isn't shown both in alarm and released.
    fn mark_plain(&mut self, zones: u32)
        ensures marks { (stamp : Tick)
            → Marks (told_finding stamp (plain_told zones)) self.old self.new }
        ensures rest { (self.new.watches ≡ self.old.watches) × (self.new.signs ≡ self.old.signs)
            × (self.new.moved ≡ self.old.moved) }
    {
        let shown = zones & self.signs.alarm & self.signs.released;
        if shown != zones {
            self.changed |= zones;
        }
    }

    // Marks the zones of which a finding tells, where it tells anything that isn't shown.
    fn mark(&mut self, finding: &Finding)
        ensures marks { Marks finding.now self.old self.new }
        ensures rest { (self.new.watches ≡ self.old.watches) × (self.new.signs ≡ self.old.signs)
            × (self.new.moved ≡ self.old.moved) }
    {
        if !is_shown(finding, &self.signs) {
            self.changed |= told(finding);
        }
    }

    // Takes note of a finding that tells of the zone at a place.
    fn take_at(&mut self, k: u8, finding: &Finding)
        requires { k < 32 }
        ensures watches { (j : ℕ)
            → slice_get self.new.watches.items j ≡ option_map (zone_taken_at k finding.now j)
            (slice_get self.old.watches.items j) }
        ensures count { length self.new.watches.items ≡ length self.old.watches.items }
        ensures rest { (self.new.changed ≡ self.old.changed) × (self.new.signs ≡ self.old.signs)
            × (self.new.moved ≡ self.old.moved) }
    {
        let place = k as usize;
        if place < self.watches.len() {
            let watch = &mut self.watches[place];
            watch.take(k, finding);
        }
    }

    // Takes note of a finding of a stamp that confirms the zone at a place plainly.
    fn confirm_at(&mut self, k: u8, stamp: Tick)
        ensures watches { (finding : Finding) → finding.stamp ≡ stamp → TellsPlainly k finding
            → (j : ℕ) → slice_get self.new.watches.items j ≡ option_map (zone_taken_at k finding j)
            (slice_get self.old.watches.items j) }
        ensures count { length self.new.watches.items ≡ length self.old.watches.items }
        ensures rest { (self.new.changed ≡ self.old.changed) × (self.new.signs ≡ self.old.signs)
            × (self.new.moved ≡ self.old.moved) }
    {
        let place = k as usize;
        if place < self.watches.len() {
            let watch = &mut self.watches[place];
            watch.confirm(stamp);
        }
    }

    /// Takes note of an operation that was done in a tick.
    pub fn apply(&mut self, operation: &Operation, at: Tick)
        ensures watches { self.new.watches.items ≡ map (zone_done operation.now at)
            self.old.watches.items }
        ensures changed { self.new.changed ≡ 2 ^ 32 - 1 }
        ensures moved { self.new.moved ≡ later_tick self.old.moved at }
    {
        for k in 0..self.watches.len() {
            let watch = &mut self.watches[k];
            watch.apply(operation, at);
        }
        self.changed = u32::MAX;
        self.note(at);
    }

    /// Takes note of the tick of an operation, of whatever panel.
    pub fn note(&mut self, at: Tick)
        ensures moved { self.new.moved ≡ later_tick self.old.moved at }
        ensures watches { self.new.watches ≡ self.old.watches }
        ensures changed { self.new.changed ≡ self.old.changed }
        ensures signs { self.new.signs ≡ self.old.signs }
    {
        if self.moved.0 < at.0 {
            self.moved = at;
        }
    }

    /// Draws what the zones show at a tick.
    pub fn draw(&mut self, now: Tick)
        ensures watches { self.new.watches.items ≡ self.old.watches.items }
        ensures moved { self.new.moved ≡ self.old.moved }
        ensures signs { (tick : ℕ) → Settled tick self.old → tick ≤ now.0
            → self.new.signs ≡ signs_at now.0 self.old.watches.items }
        ensures settled { (tick : ℕ) → Settled tick self.old → tick ≤ now.0
            → Settled now.0 self.new }
    {
        self.draw_signs(now);
        self.changed = changed_after(self.moved, now);
    }

    // Draws anew what the zones to look at show. All others show what they did.
    fn draw_signs(&mut self, now: Tick)
        ensures rest { (self.new.watches ≡ self.old.watches) × (self.new.moved ≡ self.old.moved)
            × (self.new.changed ≡ self.old.changed) }
        ensures signs { (tick : ℕ) → Settled tick self.old → tick ≤ now.0
            → self.new.signs ≡ signs_at now.0 self.old.watches.items }
    {
        let Signs {
            alarm,
            manual,
            released,
            first,
        } = self.signs;
        let look = self.changed | first;
        if look == 0 {
            return;
        }
        self.signs = Signs {
            alarm: self.drawn(Sign::Alarm, alarm, look, now),
            manual: self.drawn(Sign::Manual, manual, look, now),
            released: self.drawn(Sign::Released, released, look, now),
            first: self.drawn(Sign::First, first, look, now),
        };
    }

    /// The tick of the latest operation.
    pub fn moved(&self) -> Tick
        ensures { result ≡ self.now.moved }
    {
        self.moved
    }

    /// What the zones showed when it was drawn last.
    pub fn signs(&self) -> Signs
        ensures { result ≡ self.now.signs }
    {
        self.signs
    }

    // The mask of a sign: drawn anew for the zones to look at, as it was for all others.
    fn drawn(&self, sign: Sign, before: u32, look: u32, now: Tick) -> u32
        ensures { result ≡ drawn_mask sign now.0 self.now.watches.items look before }
    {
        let mut mask = before;
        let mut left = look;
        while left != 0 {
            let k = lowest_bit(left);
            mask = with_bit_32(mask, k, self.shows(k as usize, sign, now));
            left = with_bit_32(left, k, false);
        }
        mask
    }

    // Whether the zone at a place shows a sign.
    fn shows(&self, k: usize, sign: Sign, now: Tick) -> bool
        ensures { result ≡ watch_shows sign now.0 (slice_get self.now.watches.items k) }
    {
        match self.watches.get(k) {
            Some(watch) => watch.shows(sign, now),
            None => false,
        }
    }
}

ghost use Rattle.panel_conditions.specs.Stands.{first_watch, within_of, within_rule};

// The zones to look at after they were drawn at a tick: all, if an operation of that tick or a later one is
// yet to come in force.
fn changed_after(moved: Tick, now: Tick) -> u32
    ensures { result ≡ (if nat_lt moved.0 now.0 then 0 else 2 ^ 32 - 1) }
{
    if moved.0 < now.0 { 0 } else { u32::MAX }
}

// The zone of a panel whose number is one more than a bit, as it is at first.
fn watch_of(site: &Site, panel: u8, bit: u8) -> ZoneWatch
    requires { bit < 255 }
    ensures { result ≡ first_watch site.now panel bit }
{
    let place = place_of(site, panel, bit + 1);
    let within = match place {
        None => None,
        Some(place) => first_time(site.zones.get(place)),
    };
    ZoneWatch::new(place, bit, within)
}

// The place of the zone of a panel that has a number.
fn place_of(site: &Site, panel: u8, number: u8) -> Option<usize>
    ensures { result ≡ numbered site.now panel number }
{
    site.zones
        .as_slice()
        .iter()
        .position(|zone| zone.panel == panel && zone.number == number)
}

// How long a first state lasts.
fn first_time(zone: Option<&Zone>) -> Option<u16>
    ensures { result ≡ within_of (option_copied zone.entry) }
{
    match zone {
        None => None,
        Some(zone) => time_of(zone.rule),
    }
}

fn time_of(rule: Rule) -> Option<u16>
    ensures { result ≡ within_rule rule }
{
    match rule {
        Rule::B { within } => Some(within),
        Rule::Plain | Rule::A { .. } | Rule::C => None,
    }
}
