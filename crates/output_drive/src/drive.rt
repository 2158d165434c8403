ghost use Rattle.std.specs.Prelude.{◌≡◌, if◌then◌else◌};
ghost use Rattle.site_types.specs.Changes.{IsNumber};
ghost use Rattle.site_types.specs.Valid.{IsValid};
ghost use Rattle.panel_rules.specs.Moments.{IsPanel};

use crate::sounders::sounders_of;
use operation_desk::DoneOperation;
use output_delays::Delays;
use routing_outputs::Routing;
use site_types::{Operation, Requests, Retained, Site, has_bit_8, without_32};
use sounder_control::Silence;
use tick_units::Tick;

/// What drives the outputs of a panel.
#[derive(Drop)]
pub struct Drive {
    silence: Silence,
    delays: Delays,
    routing: Routing,
    /// The outputs that are on after the latest turn, bit `number - 1` each.
    on: u32,
    /// The outputs that a silence keeps off.
    sounders: u32,
}

impl Drive {
    ghost use Rattle.output_drive.specs.Changes.{BeginsTickAfter, HearsConfirmation, MakesDriveTurn};
    ghost use Rattle.output_drive.specs.Changes.{StandsAtFirst, TakesOperation};
    ghost use Rattle.output_drive.specs.Told.{TellsConfirmed, TellsOn, TellsUnconfirmed};

    /// The outputs of a panel before any tick, all off. The delays are on unless it is kept that they are off.
    pub fn new(site: &Site, panel: u8, kept: &Retained) -> Drive
        requires valid { IsValid site.now }
        requires member { IsPanel site.now.panels panel }
        ensures { StandsAtFirst site.now kept.now panel result }
    {
        let active = !has_bit_8(kept.delays_off, panel - 1);
        Drive {
            silence: Silence::new(),
            delays: Delays::new(site, panel, active),
            routing: Routing::new(site, panel, site.profile().routing()),
            on: 0,
            sounders: sounders_of(site, panel),
        }
    }

    /// A tick begins. In the one before, this was done at the panels of the site, the oldest first.
    pub fn begin(&mut self, panel: u8, done: &[DoneOperation], at: Tick)
        ensures { BeginsTickAfter self.old panel at.0 done.now self.new }
    {
        for one in done {
            if one.panel == panel {
                self.apply(&one.operation, at);
            }
        }
    }

    /// Makes the turn of a tick with what is asked for, the zones that are released, a mask for each panel, and
    /// the outputs that are disabled.
    pub fn turn(&mut self, now: Tick, requests: &Requests, released: &[u32; 8], off: u32)
        ensures { MakesDriveTurn self.old now.0 requests.now released.now off self.new }
    {
        let quiet = self.silence.quiet(released);
        let through = self.delays.turn(now, requests);
        let enabled = without_32(through, off);
        self.on = without_32(enabled, self.kept_off(quiet));
        self.routing.turn(now, self.on);
    }

    /// An output of the panel is confirmed from outside, by its number.
    pub fn confirm(&mut self, number: u8)
        requires { IsNumber number }
        ensures { HearsConfirmation self.old number self.new }
    {
        self.routing.confirm(number);
    }

    /// The outputs that are on, bit `number - 1` each.
    pub fn on(&self) -> u32
        ensures { TellsOn self.now result }
    {
        self.on
    }

    /// The outputs that were confirmed while they were on, and have been on since.
    pub fn confirmed(&self) -> u32
        ensures { TellsConfirmed self.now result }
    {
        self.routing.confirmed()
    }

    /// The outputs that have been on for too long without the confirmation that they ask for.
    pub fn unconfirmed(&self) -> u32
        ensures { TellsUnconfirmed self.now result }
    {
        self.routing.unconfirmed()
    }

    // An operation was done at the panel in a tick that isn't before that of another override.
    fn apply(&mut self, operation: &Operation, at: Tick)
        ensures { TakesOperation self.old operation.now at.0 self.new }
    {
        match *operation {
            Operation::Silence => self.silence.silence(),
            Operation::Resound => self.silence.resound(),
            Operation::Override => self.delays.override_now(at),
            Operation::Delays(active) => self.delays.set_delays(active),
            _ => {}
        }
    }

    // The outputs that a silence keeps off where the sounders are quiet.
    fn kept_off(&self, quiet: bool) -> u32
        ensures { result ≡ (if quiet then self.now.sounders else 0) }
    {
        if quiet { self.sounders } else { 0 }
    }
}
