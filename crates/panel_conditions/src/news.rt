ghost use Rattle.std.specs.Prelude.{◌≡◌, not, ◌==◌};
ghost use Rattle.panel_conditions.specs.Shown.{has_more, has_more_faults, has_more_points, is_news as shows_news};
ghost use Rattle.panel_conditions.specs.Shown.{line_has_more, sounds as buzzer_sounding};
ghost use Rattle.panel_conditions.specs.Words.{has_fault as some_fault, has_points as panel_has_points};
ghost use Rattle.panel_conditions.specs.Words.{some_on_line as some_of_line};

use site_types::{Buzzer, FaultSet, PointSet, Word};

/// Whether some fault is shown.
pub fn has_fault(faults: &FaultSet) -> bool
    ensures { result ≡ some_fault faults.now }
{
    has_points(&faults.missing)
        || (faults.broken != 0
            || (faults.shorted != 0
                || (faults.supply != 0
                    || (faults.silent != 0 || (faults.links != 0 || faults.unconfirmed != 0)))))
}

fn has_points(set: &PointSet) -> bool
    ensures { result ≡ panel_has_points set.now }
{
    some_on_line(&set.loops[0])
        || (some_on_line(&set.loops[1])
            || (some_on_line(&set.loops[2]) || some_on_line(&set.loops[3])))
}

fn some_on_line(halves: &[u128; 2]) -> bool
    ensures { result ≡ some_of_line halves.now }
{
    halves[0] != 0 || halves[1] != 0
}

/// Whether a zone in alarm, a first state or a fault is shown that was not shown before.
pub fn is_news(word: &Word, faults: &FaultSet, word_before: &Word, faults_before: &FaultSet) -> bool
    ensures { result ≡ shows_news word.now faults.now word_before.now faults_before.now }
{
    more_32(word.alarm, word_before.alarm)
        || (more_32(word.first, word_before.first) || more_faults(faults, faults_before))
}

fn more_faults(shown: &FaultSet, before: &FaultSet) -> bool
    ensures { result ≡ has_more_faults shown.now before.now }
{
    more_points(&shown.missing, &before.missing)
        || (more_8(shown.broken, before.broken)
            || (more_8(shown.shorted, before.shorted)
                || (more_8(shown.supply, before.supply)
                    || (more_8(shown.silent, before.silent)
                        || (more_8(shown.links, before.links)
                            || more_32(shown.unconfirmed, before.unconfirmed))))))
}

fn more_points(shown: &PointSet, before: &PointSet) -> bool
    ensures { result ≡ has_more_points shown.now before.now }
{
    more_on_line(&shown.loops[0], &before.loops[0])
        || (more_on_line(&shown.loops[1], &before.loops[1])
            || (more_on_line(&shown.loops[2], &before.loops[2])
                || more_on_line(&shown.loops[3], &before.loops[3])))
}

fn more_on_line(shown: &[u128; 2], before: &[u128; 2]) -> bool
    ensures { result ≡ line_has_more shown.now before.now }
{
    more_128(shown[0], before[0]) || more_128(shown[1], before[1])
}

// Whether one mask has a bit that the other hasn't.
fn more_8(shown: u8, before: u8) -> bool
    ensures { result ≡ has_more 8 shown before }
{
    shown & !before != 0
}

fn more_32(shown: u32, before: u32) -> bool
    ensures { result ≡ has_more 32 shown before }
{
    shown & !before != 0
}

fn more_128(shown: u128, before: u128) -> bool
    ensures { result ≡ has_more 128 shown before }
{
    shown & !before != 0
}

/// What the buzzer sounds, by whether anything was newly shown after the last mute.
pub fn sounds(word: &Word, unmuted: bool) -> Buzzer
    ensures { result ≡ buzzer_sounding word.now unmuted }
{
    if !unmuted {
        Buzzer::Off
    } else if word.alarm != 0 || word.first != 0 {
        Buzzer::Fire
    } else if word.fault {
        Buzzer::Fault
    } else {
        Buzzer::Off
    }
}
