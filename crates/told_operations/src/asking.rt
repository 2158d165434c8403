//! What the lines of a record ask for.

ghost use Rattle.std.specs.Prelude.{◌≡◌, ◌<◌, ◌≤◌, ◌∷◌, ◌++◌, map, length, option_map, IfOk, OnOk};
ghost use Rattle.access_levels.specs.Levels.{level_of as level_opened};
ghost use Rattle.record_lines.specs.Judged.{line_view};
ghost use Rattle.told_operations.specs.Asked.{asked_by_event, asked_in_lines};

use crate::asked_operation::AskedOperation;
use access_levels::level_of;
use record_lines::Line;
use site_types::{Event, Label, Site};
use std::alloc::Global;
use tick_units::{Items, NoMemory, Tick};

/// The operations that the lines of a record ask for, by their numbers.
///
/// # Errors
///
/// Where memory is refused.
pub fn asked_operations(
    alloc: Global,
    site: &Site,
    lines: &[Line],
) -> Result<Items<AskedOperation>, NoMemory>
    ensures { IfOk result (λ asked. asked ≡ asked_in_lines site.now (map line_view lines.now)) }
{
    let mut asked = Vec::new(alloc);
    let mut ticks = 0;
    for place in 0..lines.len() {
        match &lines[place] {
            Line::Tick(_) => ticks += 1,
            Line::Event(event) => keep_asked(&mut asked, site, ticks, event)?,
            Line::Order(_) => {}
            Line::End => {}
        }
    }
    Ok(Items::from_vec(asked))
}

// Puts the operation of an event, if it is one, behind those that were asked for before. Before the first tick nothing
// is asked for.
fn keep_asked(
    asked: &mut Vec<AskedOperation>,
    site: &Site,
    tick: u64,
    event: &Event,
) -> Result<(), NoMemory>
    ensures { OnOk result (asked.new.items
        ≡ asked.old.items ++ asked_by_event site.now tick event.now) }
{
    if tick == 0 {
        return Ok(());
    }
    match event {
        Event::Op {
            panel,
            code,
            operation,
        } => {
            asked.push(AskedOperation {
                tick: Tick(tick),
                panel: *panel,
                level: level_by(code, site),
                operation: *operation,
            })?;
            Ok(())
        }
        _ => Ok(()),
    }
}

// The level that a code opens, or none.
fn level_by(code: &Option<Label>, site: &Site) -> u8
    ensures { result ≡ level_opened site.now (option_map (λ label. label.bytes) code.now) }
{
    match code {
        None => level_of(None, site),
        Some(label) => level_of(Some(label.as_str()), site),
    }
}
