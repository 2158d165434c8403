//! The face of a panel, with some operations done.

ghost use Rattle.std.specs.Prelude.{◌≡◌, List};
ghost use Rattle.site_types.specs.Valid.{IsPanel, IsValid};
ghost use Rattle.panel_rules.specs.Moments.{Moment as MomentOf};
ghost use Rattle.plain_panel.specs.Network.{StandsFor, TellsWords};
ghost use Rattle.plain_panel.specs.SiteStates.{TellsFace};

use crate::network::Network;
use face_text::Face;
use panel_settings::Setting;
use plain_history::Settings;
use plain_outputs::{Driving, OutputState, outputs_in};
use site_types::{Retained, Site, Word};
use tick_units::Tick;

/// The face of a panel of a site at the tick that began last, with what is stored by then.
pub fn face_of(
    network: &Network,
    driving: &Driving,
    settings: &Settings,
    stored: &Retained,
    panel: u8,
    tick: Tick,
) -> Face
    requires valid { IsValid settings.now.site.now }
    requires size { network.now.panels ≡ settings.now.site.now.panels }
    requires panel { IsPanel settings.now.site.now panel }
    ensures { TellsFace settings.now network.now driving.now tick.0 stored.now panel result }
{
    Face {
        panel,
        zones: alarms_shown(network, settings.site, panel),
        firsts: firsts_shown(network, settings.site, panel),
        faults: network.faults(panel),
        outputs: outputs_in(OutputState::On, driving, settings, panel),
        confirmed: outputs_in(OutputState::Confirmed, driving, settings, panel),
        points_off: settings.points_off(panel, tick),
        zones_off: settings.zones_off(panel, tick),
        outputs_off: settings.outputs_off(panel, tick),
        test: settings.zones_in_test(panel, tick),
        delays_off: settings.in_force(Setting::DelaysOff(panel), tick),
        buzzer: network.buzzer(settings.site, settings.done, panel),
        counter: stored.counters[panel as usize - 1],
    }
}

ghost use Rattle.std.specs.Prelude.{◌≤◌};
ghost use Rattle.site_types.specs.declared.retained.Retained.{Retained as RetainedOf};
ghost use Rattle.site_types.specs.declared.word.Word.{Word as WordOf};
ghost use Rattle.site_types.specs.Done.{Done as DoneOf};
ghost use Rattle.site_types.specs.Words.{empty_word};
ghost use Rattle.panel_rules.specs.Faces.{shown_word};

// The zones in alarm that a panel shows, by panel.
fn alarms_shown(network: &Network, site: &Site, panel: u8) -> [u32; 8]
    requires size { network.now.panels ≡ site.now.panels }
    requires panel { IsPanel site.now panel }
    ensures { TellsWords site.now panel (λ (word : WordOf). word.alarm) network.now result }
{
    [
        word_shown(network, site, panel, 1).alarm,
        word_shown(network, site, panel, 2).alarm,
        word_shown(network, site, panel, 3).alarm,
        word_shown(network, site, panel, 4).alarm,
        word_shown(network, site, panel, 5).alarm,
        word_shown(network, site, panel, 6).alarm,
        word_shown(network, site, panel, 7).alarm,
        word_shown(network, site, panel, 8).alarm,
    ]
}

// The zones in first state that a panel shows, by panel.
fn firsts_shown(network: &Network, site: &Site, panel: u8) -> [u32; 8]
    requires size { network.now.panels ≡ site.now.panels }
    requires panel { IsPanel site.now panel }
    ensures { TellsWords site.now panel (λ (word : WordOf). word.first) network.now result }
{
    [
        word_shown(network, site, panel, 1).first,
        word_shown(network, site, panel, 2).first,
        word_shown(network, site, panel, 3).first,
        word_shown(network, site, panel, 4).first,
        word_shown(network, site, panel, 5).first,
        word_shown(network, site, panel, 6).first,
        word_shown(network, site, panel, 7).first,
        word_shown(network, site, panel, 8).first,
    ]
}

// The word of a panel that another one shows; a panel that the site has not told nothing.
fn word_shown(network: &Network, site: &Site, panel: u8, source: u8) -> Word
    requires size { network.now.panels ≡ site.now.panels }
    requires panel { IsPanel site.now panel }
    requires source { 1 ≤ source }
    ensures { (kept : RetainedOf) (done : List DoneOf) (before : List MomentOf)
        → StandsFor site.now kept done before network.now
        → result ≡ shown_word site.now kept done panel before source }
{
    if source <= site.panels {
        network.shown_word(panel, source)
    } else {
        no_word()
    }
}

fn no_word() -> Word
    ensures { result ≡ empty_word }
{
    Word {
        stamp: Tick(0),
        alarm: 0,
        manual: 0,
        released: 0,
        first: 0,
        fault: false,
    }
}
