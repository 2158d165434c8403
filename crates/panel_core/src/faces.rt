use crate::shown_zones::ShownZones;
use crate::system::System;
use face_text::Face;
use settings_shown::show_settings;
use site_types::Word;

impl System {
    ghost use Rattle.panel_core.specs.PromisedFaces.{PromisedCounter, PromisedFaults, PromisedOutputs};
    ghost use Rattle.panel_core.specs.PromisedFaces.{PromisedSettings, PromisedZones};
    ghost use Rattle.panel_core.specs.ShownFaces.{ShowsFace, ShowsWord, ShowsZones};
    ghost use Rattle.panel_core.specs.Stands.{HasPanel};

    /// What a panel shows: its own zones, those of other panels by the words that it keeps of them, its faults, its
    /// outputs, the settings in force at it, its buzzer and its counter.
    pub fn face(&self, panel: u8) -> Face
        requires { HasPanel panel self.now }
        ensures shown { ShowsFace self.now panel result }
        // What is due in time is shown, and nothing without its cause.
        ensures zones { PromisedZones self.now panel result }
        ensures outputs { PromisedOutputs self.now panel result }
        ensures faults { PromisedFaults self.now panel result }
        ensures settings { PromisedSettings self.now panel result }
        ensures counter { PromisedCounter self.now panel result }
    {
        let place = panel as usize - 1;
        let parts = &self.panels[place];
        let zones = self.zones_shown(panel);
        let alarms = zones.alarms;
        let firsts = zones.firsts;
        let mut face = Face::empty(panel);
        face.zones = alarms;
        face.firsts = firsts;
        face.faults = parts.hold.faults();
        face.outputs = parts.drive.on();
        face.confirmed = parts.drive.confirmed();
        face.buzzer = parts.hold.buzzer();
        face.counter = self.counts.counters[place];
        show_settings(&self.settings, panel, &mut face);
        face
    }

    // The zones of each panel that a panel shows.
    fn zones_shown(&self, panel: u8) -> ShownZones
        requires { HasPanel panel self.now }
        ensures { ShowsZones self.now panel result }
    {
        let mut alarms = [0; 8];
        let mut firsts = [0; 8];
        for source in 1..self.site.panels + 1 {
            let place = source as usize - 1;
            let word = self.word_shown(panel, source);
            alarms[place] = word.alarm;
            firsts[place] = word.first;
        }
        ShownZones { alarms, firsts }
    }

    // The word of a panel that another one shows, or the panel itself.
    fn word_shown(&self, panel: u8, source: u8) -> Word
        requires panel { HasPanel panel self.now }
        requires source { HasPanel source self.now }
        ensures { ShowsWord self.now panel source result }
    {
        if source == panel {
            self.panels[panel as usize - 1].hold.word()
        } else {
            self.ring.word(panel, source)
        }
    }
}
