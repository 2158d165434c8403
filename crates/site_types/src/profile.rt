ghost use Rattle.std.specs.Prelude.{◌≡◌, ◌*◌};
ghost use Rattle.site_types.specs.Profile.{
  asked_at_once,
  disablement_of,
  fault_of,
  greatest_charger_wait_of,
  greatest_delay_of,
  greatest_mains_wait_of,
  greatest_standby_wait_of,
  greatest_verify_of,
  greatest_voltage_wait_of,
  greatest_within_of,
  last_address_of,
  least_verify_of,
  least_within_a_of,
  least_within_b_of,
  missing_askings,
  network_of,
  output_of,
  reset_of,
  round_of,
  routing_of,
  signal_of,
  silent_of,
  verify_of,
};

/// The numbers of ticks that a site's format gives. Each is in ticks of that format unless it says otherwise.
#[derive(Clone, Copy, Debug, PartialEq, Eq)]
pub struct Profile {
    /// 1 or 2.
    pub format: u8,
}

impl Profile {
    /// The profile of a format, 1 or 2.
    pub fn of(format: u8) -> Profile
        ensures { result.format ≡ format }
    {
        Profile { format }
    }

    fn times(&self, ticks: u16) -> u64
        ensures { result ≡ ticks * self.now.format }
    {
        ticks as u64 * self.format as u64
    }

    /// A round of asking: each address is asked once in it.
    pub fn round(&self) -> u64
        ensures { result ≡ round_of self.now.format }
    {
        self.times(12)
    }

    /// The own panel shows a zone, and its own outputs are on, after the start of a signal that lasts a round.
    pub fn signal(&self) -> u64
        ensures { result ≡ signal_of self.now.format }
    {
        self.times(20)
    }

    /// Own outputs are on after the indication.
    pub fn output(&self) -> u64
        ensures { result ≡ output_of self.now.format }
    {
        self.times(6)
    }

    /// Joined panels show the zone and have their outputs on.
    pub fn network(&self) -> u64
        ensures { result ≡ network_of self.now.format }
    {
        self.times(40)
    }

    /// Added to a single detector's time of type A.
    pub fn verify(&self) -> u64
        ensures { result ≡ verify_of self.now.format }
    {
        self.times(12)
    }

    /// A fault is shown after its condition, its wait apart.
    pub fn fault(&self) -> u64
        ensures { result ≡ fault_of self.now.format }
    {
        self.times(200)
    }

    /// A disablement is shown after its operation.
    pub fn disablement(&self) -> u64
        ensures { result ≡ disablement_of self.now.format }
    {
        self.times(4)
    }

    /// What still stands after a reset is shown again.
    pub fn reset(&self) -> u64
        ensures { result ≡ reset_of self.now.format }
    {
        self.times(40)
    }

    /// Ticks without a newer word after which a panel is silent.
    pub fn silent(&self) -> u64
        ensures { result ≡ silent_of self.now.format }
    {
        self.times(60)
    }

    /// Ticks without confirmation after which an output shows a fault.
    pub fn routing(&self) -> u64
        ensures { result ≡ routing_of self.now.format }
    {
        self.times(200)
    }

    /// The greatest wait that a site may set for the mains.
    pub fn greatest_mains_wait(&self) -> u64
        ensures { result ≡ greatest_mains_wait_of self.now.format }
    {
        self.times(3600)
    }

    /// The greatest wait that a site may set for the standby supply.
    pub fn greatest_standby_wait(&self) -> u64
        ensures { result ≡ greatest_standby_wait_of self.now.format }
    {
        self.times(1800)
    }

    /// The greatest wait that a site may set for the voltage.
    pub fn greatest_voltage_wait(&self) -> u64
        ensures { result ≡ greatest_voltage_wait_of self.now.format }
    {
        self.times(3600)
    }

    /// The greatest wait that a site may set for the charger.
    pub fn greatest_charger_wait(&self) -> u64
        ensures { result ≡ greatest_charger_wait_of self.now.format }
    {
        self.times(3600)
    }

    /// The greatest delay of an output.
    pub fn greatest_delay(&self) -> u64
        ensures { result ≡ greatest_delay_of self.now.format }
    {
        self.times(1200)
    }

    /// How long one detector of a zone of type A has to be in alarm, at least.
    pub fn least_verify(&self) -> u64
        ensures { result ≡ least_verify_of self.now.format }
    {
        self.times(12)
    }

    /// How long one detector of a zone of type A has to be in alarm, at most.
    pub fn greatest_verify(&self) -> u64
        ensures { result ≡ greatest_verify_of self.now.format }
    {
        self.times(120)
    }

    /// How far apart two detectors of type B may be, at least.
    pub fn least_within_b(&self) -> u64
        ensures { result ≡ least_within_b_of self.now.format }
    {
        self.times(600)
    }

    /// How far apart two detectors may be, at most.
    pub fn greatest_within(&self) -> u64
        ensures { result ≡ greatest_within_of self.now.format }
    {
        self.times(3600)
    }

    /// The last address that a loop may have.
    pub fn last_address(&self) -> u64
        ensures { result ≡ last_address_of self.now.format }
    {
        self.times(96)
    }

    /// How far apart two detectors of type A may be, at least, where one has to be in alarm for `verify` ticks.
    pub fn least_within_a(&self, verify: u16) -> u64
        ensures { result ≡ least_within_a_of self.now.format verify }
    {
        verify as u64 + self.times(24)
    }

    /// Silent askings in a row that make a point missing, in either format.
    pub fn missing(&self) -> u64
        ensures { result ≡ missing_askings }
    {
        3
    }

    /// Addresses of a loop that are asked in one tick, in either format.
    pub fn asked_at_once(&self) -> u64
        ensures { result ≡ asked_at_once }
    {
        8
    }
}
