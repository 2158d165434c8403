//! Which outputs can be on.

ghost use Rattle.shown_causes.specs.Heard.{TellsCanBeOn};

use asked_markers::AskedMarkers;
use site_types::Output;

/// Whether an output can be on, with the markers of its panel over all facts that the panel may have heard.
pub fn can_be_on(asked: &AskedMarkers, output: &Output) -> bool
    ensures { TellsCanBeOn asked.now output.now result }
{
    asked.asks(output)
}
