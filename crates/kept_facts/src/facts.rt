ghost use Rattle.std.specs.Prelude.{◌≡◌};
ghost use Rattle.kept_facts.specs.KeptFacts.{HasPanels, TellsKeptFacts};

use cause_effect::Facts;
use kept_words::KeptWords;
use site_types::mask_from_8;

/// The facts that the words tell which a panel of a ring of so many keeps.
pub fn facts_kept(words: &KeptWords, panels: u8) -> Facts
    requires { HasPanels words.now panels }
    ensures { TellsKeptFacts words.now result }
{
    let mut zones = [0; 8];
    let mut manual = [0; 8];
    let mut faulty = [false; 8];
    for source in 1..panels + 1 {
        let word = words.word(source);
        let place = source as usize - 1;
        zones[place] = word.released;
        manual[place] = word.manual;
        faulty[place] = word.fault;
    }
    Facts {
        zones,
        manual,
        faults: mask_from_8(&faulty),
    }
}
