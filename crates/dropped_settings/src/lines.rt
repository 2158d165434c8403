//! Single lines of the text, each put behind it where its setting is dropped.

ghost use Rattle.std.specs.Prelude.{◌≡◌, ◌++◌, [], IfOk, if◌then◌else◌};
ghost use Rattle.dropped_settings.specs.Dropped.{counter_line as counter_text, delays_line as delays_text, named_line};
ghost use Rattle.site_types.specs.Changes.{IsPanelNumber};

use arrayvec::ArrayString;
use itoa::Buffer;
use site_types::Retained;
use tick_units::NoMemory;

/// What comes of putting lines behind a text.
pub type Pushed = Result<(), NoMemory>;

/// The line of a thing.
pub fn push_named(text: &mut Vec<u8>, is_dropped: bool, word: &str, name: &str) -> Pushed
    ensures { IfOk result (λ _. text.new.items ≡ text.old.items
        ++ (if is_dropped then named_line word.now name.now else [])) }
{
    if is_dropped {
        text.extend_from_slice(b"dropped ")?;
        text.extend_from_slice(word.as_bytes())?;
        text.extend_from_slice(b" ")?;
        text.extend_from_slice(name.as_bytes())?;
        text.extend_from_slice(b"\n")?;
    }
    Ok(())
}

/// The line of a panel's delays.
pub fn push_delays(text: &mut Vec<u8>, is_dropped: bool, panel: u8) -> Pushed
    ensures { IfOk result (λ _. text.new.items ≡ text.old.items
        ++ (if is_dropped then delays_text panel else [])) }
{
    if is_dropped {
        text.extend_from_slice(delays_line(panel).as_str().as_bytes())?;
    }
    Ok(())
}

/// The line of a panel's counter.
pub fn push_counter(text: &mut Vec<u8>, is_dropped: bool, panel: u8, kept: &Retained) -> Pushed
    requires { IsPanelNumber panel }
    ensures { IfOk result (λ _. text.new.items ≡ text.old.items
        ++ (if is_dropped then counter_text kept.now panel else [])) }
{
    if is_dropped {
        text.extend_from_slice(counter_line(panel, kept).as_str().as_bytes())?;
    }
    Ok(())
}

fn delays_line(panel: u8) -> ArrayString<64>
    ensures { result.bytes ≡ delays_text panel }
{
    let mut digits = Buffer::new();
    let mut line = ArrayString::new();
    line.push_str("dropped delays ");
    line.push_str(digits.format(panel));
    line.push_str("\n");
    line
}

fn counter_line(panel: u8, kept: &Retained) -> ArrayString<64>
    requires { IsPanelNumber panel }
    ensures { result.bytes ≡ counter_text kept.now panel }
{
    let mut digits = Buffer::new();
    let mut line = ArrayString::new();
    line.push_str("dropped counter ");
    line.push_str(digits.format(panel));
    line.push_str(" ");
    line.push_str(digits.format(kept.counters[panel as usize - 1]));
    line.push_str("\n");
    line
}
