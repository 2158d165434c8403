ghost use Rattle.std.specs.Prelude.{◌≡◌, ◌<◌, ◌+◌, ℕ, IfOk, length, replicate, slice_index_or, slice_set};
ghost use Rattle.site_types.specs.declared.point_state.PointState.TheVariants.{Quiet};
ghost use Rattle.site_types.specs.Bits.{has_bit};
ghost use Rattle.loop_poller.specs.PointSets.{TellStates, tells_alarm, tells_nothing};

use answer_lanes::BlockSet;
use site_types::PointState;
use std::alloc::Global;
use std::marker::Model;
use tick_units::NoMemory;

/// The states of the site's points, by place. Contracts see the list of them.
#[derive(Drop)]
pub struct PointStates {
    states: Vec<PointState>,
    /// The points in alarm.
    alarms: BlockSet,
    gone: BlockSet,
}

impl Model for PointStates {
    ghost use Rattle.std.specs.Prelude.{List};
    ghost use Rattle.site_types.specs.declared.point_state.PointState.{PointState as State};
    ghost use Rattle.loop_poller.specs.PointSets.{AreInSets};

    ghost Value = { List State };

    ghost view = { λ s. s.states.items };

    ghost invariant = { λ s. AreInSets s.states.items s.alarms s.gone };
}

impl PointStates {
    /// The states of so many points, all quiet. Those of these blocks are kept in one word each.
    pub fn new(alloc: Global, count: usize, blocks: &[[u16; 4]]) -> Result<PointStates, NoMemory>
        ensures { IfOk result (λ states. states ≡ replicate count Quiet) }
    {
        let states = vec![in alloc; PointState::Quiet; count]?;
        let alarms = BlockSet::first(alloc, count, false, blocks)?;
        let gone = BlockSet::first(alloc, count, false, blocks)?;
        Ok(PointStates {
            states,
            alarms,
            gone,
        })
    }

    pub fn set(&mut self, place: u16, state: PointState)
        requires { place < length self.old }
        ensures { self.new ≡ slice_set self.old place state }
    {
        self.alarms.set(place as usize, is_in_alarm(state));
        self.gone.set(place as usize, is_gone(state));
        self.states[place as usize] = state;
    }

    /// The state of the point at a place.
    pub fn at(&self, place: u16) -> PointState
        requires { place < length self.now }
        ensures { result ≡ slice_index_or self.now place Quiet }
    {
        self.states[place as usize]
    }

    /// How many points there are.
    pub fn len(&self) -> usize
        ensures { result ≡ length self.now }
    {
        self.states.len()
    }

    /// Which of eight points are in alarm, from the one at this place on.
    pub fn alarms_from(&self, first: u16) -> u8
        requires { first < length self.now }
        ensures { (k : ℕ) → k < 8 → first + k < length self.now
            → has_bit result k ≡ tells_alarm (slice_index_or self.now (first + k) Quiet) }
    {
        self.alarms.eight_within(first as usize)
    }

    /// Which of the eight points from each of four places on are in alarm, in one word, those of the first lowest.
    #[inline(always)]
    pub fn alarms_in(&self, firsts: &[u16; 4]) -> u32
        ensures { TellStates tells_alarm self.now firsts.now result }
    {
        self.alarms.eights_from(firsts)
    }

    /// Which of the eight points from each of four places on are gone, in one word, those of the first lowest.
    #[inline(always)]
    pub fn gone_in(&self, firsts: &[u16; 4]) -> u32
        ensures { TellStates tells_nothing self.now firsts.now result }
    {
        self.gone.eights_from(firsts)
    }

    /// Which of eight points are gone, from the one at this place on.
    pub fn gone_from(&self, first: u16) -> u8
        requires { first < length self.now }
        ensures { (k : ℕ) → k < 8 → first + k < length self.now
            → has_bit result k ≡ tells_nothing (slice_index_or self.now (first + k) Quiet) }
    {
        self.gone.eight_within(first as usize)
    }
}

fn is_in_alarm(state: PointState) -> bool
    ensures { result ≡ tells_alarm state }
{
    match state {
        PointState::Alarm => true,
        PointState::Quiet | PointState::Gone => false,
    }
}

fn is_gone(state: PointState) -> bool
    ensures { result ≡ tells_nothing state }
{
    match state {
        PointState::Gone => true,
        PointState::Quiet | PointState::Alarm => false,
    }
}
