//! The outputs of a panel with a state each, listed by their bits.
//!
//! [`output_of`] finds an output of a panel by its number. Where a part keeps a state for some outputs of its
//! panel, `ListsOutputs` of proofs/Listing says how the list comes about, place after place, and `HasTurned` of
//! proofs/Turning what a loop has made of it that turns each state in its place and sets the bit of each that
//! then passes a test.
#![tactic(auto)]

ghost use Rattle.std.specs.Prelude.{◌≡◌, option_copied};
ghost use Rattle.site_types.specs.Things.{numbered_output};

use site_types::{Output, Site};

/// The output of a panel with a number, if there is one.
pub fn output_of(site: &Site, panel: u8, number: u8) -> Option<&Output>
    ensures { option_copied result ≡ numbered_output site.now panel number }
{
    site.outputs
        .as_slice()
        .iter()
        .find(|output| output.panel == panel && output.number == number)
}
