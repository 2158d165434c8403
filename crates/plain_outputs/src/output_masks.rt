//! Masks of the outputs of a panel, by bit `number - 1`.

ghost use Rattle.site_types.specs.Valid.{IsValid};
ghost use Rattle.plain_outputs.specs.Outputs.{TellsBy, outputs_in_state};

use crate::driving::Driving;
use crate::output_state::OutputState;
use plain_history::{Settings, outputs_that};

/// The outputs of a panel that are in a state.
pub fn outputs_in(state: OutputState, driving: &Driving, settings: &Settings, panel: u8) -> u32
    requires { IsValid settings.now.site.now }
    ensures { TellsBy settings.now panel driving.now.seen.items (outputs_in_state state) result }
{
    let mut flags = [false; 256];
    for place in 0..settings.site.outputs.as_slice().len() {
        flags[place] = driving.is_in(state, settings, place as u16);
    }
    outputs_that(settings.site, panel, &flags)
}
