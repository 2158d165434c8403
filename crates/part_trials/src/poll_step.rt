ghost use Rattle.site_types.specs.Valid.{IsValid};

use anyhow::{Result, bail};
use site_types::{Event, PieceState, PointState, Site};
use trial_cases::event_of;

/// What befalls a point or a piece of cable of panel 1.
#[derive(Clone, Copy)]
pub(crate) enum PollStep {
    Point {
        point: u16,
        state: PointState,
    },
    Cable {
        line: u8,
        piece: u8,
        state: PieceState,
    },
}

impl PollStep {
    /// The step that a record's line spells.
    pub(crate) fn read(site: &Site, words: &str) -> Result<PollStep>
        requires { IsValid site.now }
    {
        match event_of(site, words)? {
            Event::Point { point, state } => Ok(PollStep::Point { point, state }),
            Event::Cable {
                panel: 1,
                line,
                piece,
                state,
            } => Ok(PollStep::Cable { line, piece, state }),
            Event::Cable { .. } => bail!("a cable of another panel: {words}"),
            Event::Op { operation, .. } => bail!("{operation:?} befalls no point"),
            _ => bail!("nothing that befalls a point or a cable: {words}"),
        }
    }
}
