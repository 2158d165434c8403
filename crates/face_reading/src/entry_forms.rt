//! Which entries the text of a run of a site may have.

ghost use Rattle.std.specs.Prelude.{◌↔◌, IsTrue};
ghost use Rattle.site_types.specs.Valid.{IsValid};
ghost use Rattle.face_text.specs.Slots.{HasPlace};
ghost use Rattle.face_text.specs.Timelines.{IsReply};
ghost use Rattle.face_reading.specs.Entries.{IsChange, IsEntry};
ghost use Rattle.face_reading.specs.Spelled.{IsOf64Bits};

use crate::change::Change;
use crate::entry::Entry;
use crate::guesses::Guesses;
use crate::known_names::known_name;
use face_text::{Group, Reply, is_panel, last_number};
use site_types::{GREATEST_COUNT, Site};

/// Whether the text of some run of a site may have an entry.
pub fn is_entry(site: &Site, guesses: &Guesses, entry: &Entry) -> bool
    requires valid { IsValid site.now }
    requires numbers { IsOf64Bits entry.now }
    ensures { IsTrue result ↔ IsEntry site.now entry.now }
{
    match *entry {
        Entry::Change { panel, change } => {
            is_panel(site, panel) && is_change(site, guesses, panel, change)
        }
        Entry::Answer(answer) => is_reply(answer.reply),
        Entry::Busy { panel, count } => is_panel(site, panel) && count != 0,
        Entry::StoreFailed | Entry::Tick(_) | Entry::End(_) => true,
    }
}

fn is_change(site: &Site, guesses: &Guesses, panel: u8, change: Change) -> bool
    requires { IsValid site.now }
    ensures { IsTrue result ↔ IsChange site.now panel change }
{
    match change {
        Change::Thing { group, number, .. } => {
            has_place(group)
                && number >= 1
                && number <= last_number(group)
                && known_name(site, guesses, panel, group, number).is_some()
        }
        Change::Delays(_) | Change::Buzzer(_) => true,
        Change::Counter(count) => count <= GREATEST_COUNT,
    }
}

fn has_place(group: Group) -> bool
    ensures { IsTrue result ↔ HasPlace group }
{
    match group {
        Group::Zones(panel) | Group::Firsts(panel) => panel >= 1 && panel <= 8,
        Group::Missing(line) | Group::PointsOff(line) => line >= 1 && line <= 4,
        _ => true,
    }
}

fn is_reply(reply: Reply) -> bool
    ensures { IsTrue result ↔ IsReply reply }
{
    match reply {
        Reply::Denied { needs, has } => needs >= 2 && needs <= 4 && has < needs,
        Reply::Done | Reply::Waiting | Reply::Already | Reply::Store => true,
    }
}
