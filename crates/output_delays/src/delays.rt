ghost use Rattle.std.specs.Prelude.{◌≡◌, ◌<◌, ◌==◌, ◌&&◌, Bool, [], ◌∷◌, ℕ, List, map};
ghost use Rattle.std.specs.List.{AllByRecursion, list_any};
ghost use Rattle.std.proofs.Props.{props};
ghost use Rattle.site_types.specs.declared.site.Site.{Site as SiteOf};
ghost use Rattle.site_types.specs.Bits.{mask_of};
ghost use Rattle.output_delays.specs.Overrides.{AllUpTo};
ghost use Rattle.output_delays.specs.Runs.{Call, Overrode, Switched, Turned, delay_of, overrides_of};
ghost use Rattle.output_delays.specs.Timers.{is_holding, turned_by};

use crate::overrides::Overrides;
use crate::timer::Timer;
use arrayvec::ArrayVec;
use output_lists::output_of;
use site_types::{MOST_OUTPUTS, Requests, Site, has_bit_32, with_bit_32, without_32};
use tick_units::Tick;

/// The delays of a panel's outputs.
#[derive(Drop)]
pub struct Delays {
    /// Whether the delays of the panel are on.
    active: bool,
    /// For each output that has a delay.
    timers: ArrayVec<Timer, 32>,
    overrides: Overrides,
    ghost placed: { AllByRecursion (λ timer. timer.place < 32) timers.items } by { Prim.hlevel props },
}

impl Delays {
    ghost use Rattle.output_delays.specs.Passed.{PassesRequests};
    ghost use Rattle.output_delays.specs.Stands.{StandsFor};

    /// The delays of a panel, on or off, before any turn.
    pub fn new(site: &Site, panel: u8, active: bool) -> Delays
        ensures { StandsFor site.now panel active [] result }
    {
        let mut timers = ArrayVec::new();
        for place in 0..MOST_OUTPUTS {
            let delay = delay_of(site, panel, place + 1);
            if delay > 0 {
                timers.push(Timer {
                    place,
                    delay,
                    since: None,
                });
            }
        }
        Delays {
            active,
            timers,
            overrides: Overrides::NONE,
        }
    }

    /// Makes the turn of a tick, which isn't before any override, and gives the outputs asked for in it that
    /// no delay holds back, bit `number - 1` each.
    pub fn turn(&mut self, now: Tick, requests: &Requests) -> u32
        ensures stands { (site : SiteOf) (panel : ℕ) (active : Bool) (calls : List Call)
            → StandsFor site panel active calls self.old
            → StandsFor site panel active (Turned now.0 requests.now ∷ calls) self.new }
        ensures value { PassesRequests self.old now.0 requests.now result }
    {
        if self.timers.is_empty() {
            return requests.asked;
        }
        let overridden = self.overrides.last_before(now);
        let held = turn_timers(self.timers.as_mut_slice(), now, requests.asked, overridden);
        if self.active {
            without_32(requests.asked, without_32(held, requests.manual))
        } else {
            requests.asked
        }
    }

    /// Overrides the delays of the requests that stand in a tick, from the next tick on. The tick isn't
    /// before that of another override.
    pub fn override_now(&mut self, at: Tick)
        ensures { (site : SiteOf) (panel : ℕ) (active : Bool) (calls : List Call)
            → StandsFor site panel active calls self.old → AllUpTo at.0 (overrides_of calls)
            → StandsFor site panel active (Overrode at.0 ∷ calls) self.new }
    {
        self.overrides = self.overrides.note(at);
    }

    /// Turns the delays of the panel on or off, from the next turn on.
    pub fn set_delays(&mut self, active: bool)
        ensures { (site : SiteOf) (panel : ℕ) (first : Bool) (calls : List Call)
            → StandsFor site panel first calls self.old
            → StandsFor site panel first (Switched active ∷ calls) self.new }
    {
        self.active = active;
    }
}

// The delay of an output of a panel, in ticks; 0 where there is no such output.
fn delay_of(site: &Site, panel: u8, number: u8) -> u16
    ensures { result ≡ delay_of site.now panel number }
{
    match output_of(site, panel, number) {
        Some(output) => output.delay,
        None => 0,
    }
}

// Makes the turn of each timer, and gives the outputs that are held back.
fn turn_timers(timers: &mut [Timer], now: Tick, asked: u32, overridden: Option<Tick>) -> u32
    requires { AllByRecursion (λ timer. timer.place < 32) timers.old }
    ensures timers { timers.new ≡ map (turned_by now asked) timers.old }
    ensures held { result
        ≡ mask_of 32 (λ k. list_any (λ timer. (timer.place == k) && is_holding now overridden timer)
        timers.new) }
{
    let mut held = 0;
    for timer in timers.iter_mut() {
        *timer = timer.turn(now, has_bit_32(asked, timer.place));
        if timer.is_holding(now, overridden) {
            held = with_bit_32(held, timer.place, true);
        }
    }
    held
}
