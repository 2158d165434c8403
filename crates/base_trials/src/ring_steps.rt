ghost use Rattle.std.specs.Prelude.{◌≡◌};

use anyhow::{Result, bail};
use panel_links::Ring;
use site_types::Word;
use tick_units::Tick;
use trial_cases::Words;

/// What befalls a ring.
#[derive(Clone, Copy)]
pub(crate) enum RingStep {
    /// `link 8 down` or `link 8 up`.
    Link { link: u8, is_up: bool },
    /// `panel 1 alarm 5`: from now on the panel has zones of this mask in alarm.
    Alarm { panel: u8, zones: u32 },
}

impl RingStep {
    pub(crate) fn read(step: &str) -> Result<RingStep> {
        match step.split_once(' ') {
            Some(("link", words)) => link_of(Words::of(words)),
            Some(("panel", words)) => alarm_of(Words::of(words)),
            _ => bail!("nothing that befalls a ring: {step}"),
        }
    }
}

fn link_of(mut words: Words) -> Result<RingStep> {
    let link = words.byte()?;
    let is_up = words.rest() == "up";
    Ok(RingStep::Link { link, is_up })
}

fn alarm_of(mut words: Words) -> Result<RingStep> {
    let panel = words.byte()?;
    let zones = words.rest().trim_start_matches("alarm ").parse::<u32>()?;
    Ok(RingStep::Alarm { panel, zones })
}

/// Sets a link of a ring.
pub(crate) fn set_link(ring: &mut Ring, link: u8, is_up: bool) -> Result<()>
    ensures { ring.new.panels ≡ ring.old.panels }
{
    if link < 1 || link > 8 {
        bail!("a ring has links 1 to 8");
    }
    ring.set_link(link, is_up);
    Ok(())
}

/// The word of a panel with zones in alarm.
pub(crate) fn word(stamp: u64, alarm: u32) -> Word {
    Word {
        stamp: Tick(stamp),
        alarm,
        ..Word::default()
    }
}
