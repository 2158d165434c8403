ghost use Rattle.std.specs.Prelude.{◌≡◌, ◌+◌, ◌<◌, ◌==◌, ◌&&◌, [], ◌∷◌, ℕ, List, map};
ghost use Rattle.std.specs.List.{AllByRecursion, list_any};
ghost use Rattle.std.proofs.Props.{props};
ghost use Rattle.site_types.specs.declared.site.Site.{Site as SiteOf};
ghost use Rattle.site_types.specs.Bits.{has_bit, mask_of};
ghost use Rattle.site_types.specs.Changes.{IsNumber};
ghost use Rattle.routing_outputs.specs.Confirmations.{Call, Confirmed, Turned, is_confirmed, is_unconfirmed};
ghost use Rattle.routing_outputs.specs.Confirmations.{is_watched, state_of};
ghost use Rattle.routing_outputs.specs.WatchedOutputs.{is_late, turned_by};

use crate::routing_state::RoutingState;
use crate::watched_output::WatchedOutput;
use arrayvec::ArrayVec;
use output_lists::output_of;
use site_types::{
    MOST_OUTPUTS, OutputKind, Site, common_32, has_bit_32, mask_from_32, with_bit_32, without_32,
};
use tick_units::Tick;

/// The routing and protection outputs of a panel, and their confirmations.
#[derive(Drop)]
pub struct Routing {
    /// In ticks.
    limit: u64,
    outputs: ArrayVec<WatchedOutput, 32>,
    /// These outputs, bit `number - 1` each.
    watched: u32,
    /// Of these, those that were on after the latest turn.
    on: u32,
    /// Of these, those that were confirmed since they went on.
    confirmed: u32,
    /// Of these, those that had been on for the limit at the latest turn.
    late: u32,
    ghost placed: { AllByRecursion (λ output. output.place < 32) outputs.items } by { Prim.hlevel props },
}

impl Routing {
    ghost use Rattle.routing_outputs.specs.Stands.{StandsFor};

    /// The routing and protection outputs of a panel, all off. An output that isn't confirmed for as many
    /// ticks as the limit is unconfirmed.
    pub fn new(site: &Site, panel: u8, limit: u64) -> Routing
        ensures { StandsFor site.now panel limit [] result }
    {
        let mut outputs = ArrayVec::new();
        let mut watched = [false; 32];
        for place in 0..MOST_OUTPUTS {
            let waits = is_watched(site, panel, place + 1);
            watched[place as usize] = waits;
            if waits {
                outputs.push(WatchedOutput { place, since: None });
            }
        }
        Routing {
            limit,
            outputs,
            watched: mask_from_32(&watched),
            on: 0,
            confirmed: 0,
            late: 0,
        }
    }

    /// Makes the turn of a tick with the outputs that are on after it, bit `number - 1` each.
    pub fn turn(&mut self, now: Tick, on: u32)
        ensures { (site : SiteOf) (panel limit : ℕ) (calls : List Call)
            → StandsFor site panel limit calls self.old
            → StandsFor site panel limit (Turned now.0 on ∷ calls) self.new }
    {
        if self.outputs.is_empty() {
            return;
        }
        self.late = turn_outputs(self.outputs.as_mut_slice(), now, on, self.limit);
        self.on = common_32(self.watched, on);
        self.confirmed = common_32(self.confirmed, on);
    }

    /// Confirms an output, by its number.
    pub fn confirm(&mut self, number: u8)
        requires { IsNumber number }
        ensures { (site : SiteOf) (panel limit : ℕ) (calls : List Call)
            → StandsFor site panel limit calls self.old
            → StandsFor site panel limit (Confirmed number ∷ calls) self.new }
    {
        if has_bit_32(self.on, number - 1) {
            self.confirmed = with_bit_32(self.confirmed, number - 1, true);
        }
    }

    /// What an output is at, by its number.
    pub fn state(&self, number: u8) -> RoutingState
        requires { IsNumber number }
        ensures { (site : SiteOf) (panel limit : ℕ) (calls : List Call)
            → StandsFor site panel limit calls self.now
            → result ≡ state_of site panel limit number calls }
    {
        let place = number - 1;
        if has_bit_32(self.confirmed, place) {
            RoutingState::Confirmed
        } else if has_bit_32(self.late, place) {
            RoutingState::Unconfirmed
        } else if has_bit_32(self.on, place) {
            RoutingState::Waiting
        } else {
            RoutingState::Idle
        }
    }

    /// The outputs that are confirmed, bit `number - 1` each.
    pub fn confirmed(&self) -> u32
        ensures { (site : SiteOf) (panel limit : ℕ) (calls : List Call)
            → StandsFor site panel limit calls self.now
            → result ≡ mask_of 32 (λ k. is_confirmed (state_of site panel limit (k + 1) calls)) }
    {
        self.confirmed
    }

    /// The outputs that are unconfirmed, bit `number - 1` each.
    pub fn unconfirmed(&self) -> u32
        ensures { (site : SiteOf) (panel limit : ℕ) (calls : List Call)
            → StandsFor site panel limit calls self.now
            → result ≡ mask_of 32 (λ k. is_unconfirmed (state_of site panel limit (k + 1) calls)) }
    {
        without_32(self.late, self.confirmed)
    }
}

// Whether an output of a panel is there and waits for confirmations.
fn is_watched(site: &Site, panel: u8, number: u8) -> bool
    ensures { result ≡ is_watched site.now panel number }
{
    match output_of(site, panel, number) {
        Some(output) => matches!(output.kind, OutputKind::Routing | OutputKind::Protection),
        None => false,
    }
}

// Makes the turn of each output, and gives those that have been on for the limit.
fn turn_outputs(outputs: &mut [WatchedOutput], now: Tick, on: u32, limit: u64) -> u32
    requires { AllByRecursion (λ output. output.place < 32) outputs.old }
    ensures outputs { outputs.new ≡ map (turned_by now on) outputs.old }
    ensures late { result
        ≡ mask_of 32 (λ k. list_any (λ output. (output.place == k) && is_late now limit output)
        outputs.new) }
{
    let mut late = 0;
    for output in outputs.iter_mut() {
        *output = output.turn(now, has_bit_32(on, output.place));
        if output.is_late(now, limit) {
            late = with_bit_32(late, output.place, true);
        }
    }
    late
}
