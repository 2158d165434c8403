ghost use Rattle.site_types.specs.Valid.{IsValid};

use anyhow::{Result, bail};
use site_types::{Event, Operation, Site};
use trial_cases::{event_of, outputs_of};

/// What comes to the delays of a panel.
#[derive(Clone, Copy)]
pub(crate) enum DelayStep {
    /// These outputs are asked for from now on.
    Asked(u32),
    /// These are asked for by hand from now on.
    ByHand(u32),
    /// An operation is done before the turn of its tick.
    Early(Operation),
    /// An operation is done behind the turn of its tick.
    Done(Operation),
}

impl DelayStep {
    /// The step that words spell: `ask bells fans`, `by hand fans`, or the line of a record for an operation,
    /// with `early ` in front of one that is done before the turn.
    pub(crate) fn read(site: &Site, words: &str) -> Result<DelayStep>
        requires { IsValid site.now }
    {
        match words.split_once(' ') {
            Some(("ask", names)) => Ok(DelayStep::Asked(outputs_of(site, names)?)),
            Some(("by", names)) => Ok(DelayStep::ByHand(outputs_of(
                site,
                names.trim_start_matches("hand "),
            )?)),
            Some(("early", line)) => Ok(DelayStep::Early(operation_of(site, line)?)),
            _ => Ok(DelayStep::Done(operation_of(site, words)?)),
        }
    }
}

fn operation_of(site: &Site, line: &str) -> Result<Operation>
    requires { IsValid site.now }
{
    match event_of(site, line)? {
        Event::Op { operation, .. } => Ok(operation),
        _ => bail!("no operation: {line}"),
    }
}
