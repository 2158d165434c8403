ghost use Rattle.std.specs.Prelude.{◌≡◌, ◌≤◌, [], ◌∷◌, true, map, string_bytes};
ghost use Rattle.panel_program.specs.Words.{IsBounded, command_of as command_by, drill_by, node_by, serving_by};
ghost use Rattle.panel_program.specs.Words.{is_serving, most_connections, most_port};
ghost use Rattle.site_types.specs.Numbers.{number_of};

use panel_drill::MOST_TICKS;
use site_types::read_number;

/// The greatest port of a door.
const MOST_PORT: u64 = 65_535;

/// The most connections that may be served.
const MOST_CONNECTIONS: u64 = 1_000_000;

/// The most panels of a site.
const MOST_PANELS: u64 = 8;

/// What the words of a call ask for. The second word names the site, but for a drill.
#[derive(Clone, Copy)]
pub enum Command {
    /// Words that no command has.
    Usage,
    Check,
    Run,
    Matrix,
    /// A drill of so many ticks, from a seed.
    Drill { seed: u64, ticks: u64 },
    /// A move from the site that the second word names to the one that the third names.
    Move,
    /// An audit of the text that the fourth word names, by the record that the third one names.
    Audit,
    /// An import of the file that the third word names.
    Import,
    /// Serving behind a door at a port, so many connections.
    Serve { port: u16, count: u32 },
    /// Serving one panel by itself so.
    Node { panel: u8, port: u16, count: u32 },
}

/// The command that has these words.
pub fn command_of(words: &[String]) -> Command
    ensures command { result ≡ command_by (map string_bytes words.now) }
    ensures bounded { IsBounded result }
{
    match words {
        [word, _site] => check_or_matrix(word.as_str()),
        [word, second, third] => run_or_drill(word.as_str(), second.as_str(), third.as_str()),
        [word, _site, _third, _fourth] => import_or_audit(word.as_str()),
        [word, _second, _third, fourth, fifth] => {
            move_or_serve(word.as_str(), fourth.as_str(), fifth.as_str())
        }
        [word, _site, _journal, panel, port, count] => {
            if word.as_str() == "node" {
                node_of(panel.as_str(), port.as_str(), count.as_str())
            } else {
                Command::Usage
            }
        }
        _ => Command::Usage,
    }
}

// The command of two words.
fn check_or_matrix(word: &str) -> Command
    ensures command { result ≡ command_by (word.now ∷ [] ∷ []) }
    ensures bounded { IsBounded result }
{
    if word == "check" {
        Command::Check
    } else if word == "matrix" {
        Command::Matrix
    } else {
        Command::Usage
    }
}

// The command of three words.
fn run_or_drill(word: &str, second: &str, third: &str) -> Command
    ensures command { result ≡ command_by (word.now ∷ second.now ∷ third.now ∷ []) }
    ensures bounded { IsBounded result }
{
    if word == "run" {
        Command::Run
    } else if word == "drill" {
        drill_of(second, third)
    } else {
        Command::Usage
    }
}

// The command of four words.
fn import_or_audit(word: &str) -> Command
    ensures command { result ≡ command_by (word.now ∷ [] ∷ [] ∷ [] ∷ []) }
    ensures bounded { IsBounded result }
{
    if word == "import" {
        Command::Import
    } else if word == "audit" {
        Command::Audit
    } else {
        Command::Usage
    }
}

// The command of five words.
fn move_or_serve(word: &str, port: &str, count: &str) -> Command
    ensures command { result ≡ command_by (word.now ∷ [] ∷ [] ∷ port.now ∷ count.now ∷ []) }
    ensures bounded { IsBounded result }
{
    if word == "move" {
        Command::Move
    } else if word == "serve" {
        serving_of(port, count)
    } else {
        Command::Usage
    }
}

// The drill of a seed and a number of ticks, where both are numbers and there are neither none nor too many of these.
fn drill_of(seed: &str, ticks: &str) -> Command
    ensures command { result ≡ drill_by (number_of seed.now) (number_of ticks.now) }
    ensures bounded { IsBounded result }
{
    match (read_number(seed.as_bytes()), read_number(ticks.as_bytes())) {
        (Some(seed), Some(ticks)) => {
            if ticks >= 1 && ticks <= MOST_TICKS {
                Command::Drill { seed, ticks }
            } else {
                Command::Usage
            }
        }
        _ => Command::Usage,
    }
}

// Serving at a port, so many connections, where both are numbers and there are neither none nor too many of these.
fn serving_of(port: &str, count: &str) -> Command
    ensures command { result ≡ serving_by (number_of port.now) (number_of count.now) }
    ensures bounded { IsBounded result }
{
    match (read_number(port.as_bytes()), read_number(count.as_bytes())) {
        (Some(port), Some(count)) => {
            if may_serve(port, count) {
                Command::Serve {
                    port: port as u16,
                    count: count as u32,
                }
            } else {
                Command::Usage
            }
        }
        _ => Command::Usage,
    }
}

// Whether so many connections may be served at a port.
fn may_serve(port: u64, count: u64) -> bool
    ensures may { result ≡ is_serving port count }
    ensures port { result ≡ true → port ≤ most_port }
    ensures count { result ≡ true → (1 ≤ count) × (count ≤ most_connections) }
{
    port >= 1 && port <= MOST_PORT && count >= 1 && count <= MOST_CONNECTIONS
}

// Serving a panel by itself, where all three are numbers, the panel's is that of one that a site may have, and there
// are neither none nor too many connections.
fn node_of(panel: &str, port: &str, count: &str) -> Command
    ensures command { result ≡ node_by (number_of panel.now) (number_of port.now) (number_of
        count.now) }
    ensures bounded { IsBounded result }
{
    match (
        read_number(panel.as_bytes()),
        read_number(port.as_bytes()),
        read_number(count.as_bytes()),
    ) {
        (Some(panel), Some(port), Some(count)) => {
            if panel >= 1 && panel <= MOST_PANELS && may_serve(port, count) {
                Command::Node {
                    panel: panel as u8,
                    port: port as u16,
                    count: count as u32,
                }
            } else {
                Command::Usage
            }
        }
        _ => Command::Usage,
    }
}
