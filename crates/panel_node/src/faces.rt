use crate::node::Node;
use face_text::Face;
use panel_links::Frame;
use settings_shown::show_settings;
use site_types::Word;

impl Node {
    ghost use Rattle.panel_node.specs.Shown.{SendsFrame, ShowsFace, ShowsWord, ShowsZones, StaysInGrammar};
    ghost use Rattle.panel_node.specs.Stands.{StandsForHistory};
    ghost use Rattle.panel_rules.specs.Moments.{IsPanel};

    /// What the panel shows: its own zones, those of the other panels by the newest words that came, its faults, its
    /// outputs, the settings in force at it, its buzzer and its counter.
    pub fn face(&self) -> Face
        requires { StandsForHistory self.now }
        ensures shown { ShowsFace self.now result }
    {
        let (alarms, firsts) = self.zones_shown();
        let mut face = Face::empty(self.panel);
        face.zones = alarms;
        face.firsts = firsts;
        face.faults = self.parts.hold.faults();
        face.outputs = self.parts.drive.on();
        face.confirmed = self.parts.drive.confirmed();
        face.buzzer = self.parts.hold.buzzer();
        face.counter = self.counts.counters[self.panel as usize - 1];
        show_settings(&self.settings, self.panel, &mut face);
        face
    }

    /// What the panel hands to its neighbours now.
    pub fn frame(&self) -> Frame
        ensures sent { SendsFrame self.now result }
        ensures grammar { StaysInGrammar self.now result }
    {
        self.words.frame(self.tick)
    }

    // The zones of each panel that the panel shows in alarm, and those in first state.
    fn zones_shown(&self) -> ([u32; 8], [u32; 8])
        requires { StandsForHistory self.now }
        ensures { ShowsZones self.now result.0 result.1 }
    {
        let mut alarms = [0; 8];
        let mut firsts = [0; 8];
        for source in 1..self.site.panels + 1 {
            let word = self.word_shown(source);
            alarms[source as usize - 1] = word.alarm;
            firsts[source as usize - 1] = word.first;
        }
        (alarms, firsts)
    }

    // The word of a panel by which its zones are shown: of its own the latest, of others the newest that came.
    fn word_shown(&self, source: u8) -> Word
        requires some { StandsForHistory self.now }
        requires source { IsPanel self.now.site.panels source }
        ensures { ShowsWord self.now source result }
    {
        if source == self.panel {
            self.parts.hold.word()
        } else {
            self.words.word(source)
        }
    }
}
