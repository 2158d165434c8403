//! Which entry a line may be that of. Whether it is, the entry's own line tells.

ghost use Rattle.std.specs.Prelude.{◌≡◌, IfSome};
ghost use Rattle.site_types.specs.Valid.{IsValid};
ghost use Rattle.face_reading.specs.Spelled.{IsOf64Bits, answer_spelled, change_spelled, denied_spelled, entry_spelled};
ghost use Rattle.face_reading.specs.Spelled.{panel_spelled, plain_spelled, reply_spelled, sound_of};

use crate::change::Change;
use crate::entry::Entry;
use crate::guesses::Guesses;
use crate::thing_reading::{read_thing, truth_place};
use face_text::{OpAnswer, Reply};
use line_fields::{field, is_word, read_count, read_octet, read_truth};
use site_types::{Buzzer, Site, read_number};
use tick_units::Tick;

/// The one entry that a line may be that of, if there is one.
pub fn candidate(site: &Site, guesses: &Guesses, text: &[u8]) -> Option<Entry>
    requires { IsValid site.now }
    ensures entry { result ≡ entry_spelled site.now text.now }
    ensures numbers { IfSome result IsOf64Bits }
{
    match read_octet(field(text, 0)) {
        Some(panel) => read_panel_line(site, guesses, panel, text),
        None => read_plain_line(text),
    }
}

// A line of a panel.
fn read_panel_line(site: &Site, guesses: &Guesses, panel: u8, text: &[u8]) -> Option<Entry>
    requires { IsValid site.now }
    ensures entry { result ≡ panel_spelled site.now panel text.now }
    ensures numbers { IfSome result IsOf64Bits }
{
    if is_word(field(text, 1), b"busy") {
        let count = read_number(field(text, 2))?;
        Some(Entry::Busy { panel, count })
    } else {
        let change = read_change(site, guesses, text)?;
        Some(Entry::Change { panel, change })
    }
}

// A line that doesn't begin with a panel's number.
fn read_plain_line(text: &[u8]) -> Option<Entry>
    ensures entry { result ≡ plain_spelled text.now }
    ensures numbers { IfSome result IsOf64Bits }
{
    let word = field(text, 0);
    if is_word(word, b"op") {
        read_answer(text)
    } else if is_word(word, b"store") {
        Some(Entry::StoreFailed)
    } else if is_word(word, b"tick") {
        let number = read_number(field(text, 1))?;
        Some(Entry::Tick(Tick(number)))
    } else if is_word(word, b"end") {
        let number = read_number(field(text, 1))?;
        Some(Entry::End(Tick(number)))
    } else {
        None
    }
}

fn read_change(site: &Site, guesses: &Guesses, text: &[u8]) -> Option<Change>
    requires { IsValid site.now }
    ensures { result ≡ change_spelled site.now text.now }
{
    let word = field(text, 1);
    if is_word(word, b"delays") {
        let on = read_truth(field(text, 2))?;
        Some(Change::Delays(on))
    } else if is_word(word, b"buzzer") {
        let sound = read_sound(field(text, 2))?;
        Some(Change::Buzzer(sound))
    } else if is_word(word, b"counter") {
        let count = read_count(field(text, 2))?;
        Some(Change::Counter(count))
    } else {
        let thing = read_thing(site, guesses, word, field(text, 2), field(text, 3))?;
        let on = read_truth(field(text, truth_place(thing.group)))?;
        Some(Change::Thing {
            group: thing.group,
            number: thing.number,
            on,
        })
    }
}

fn read_answer(text: &[u8]) -> Option<Entry>
    ensures entry { result ≡ answer_spelled text.now }
    ensures numbers { IfSome result IsOf64Bits }
{
    let number = read_number(field(text, 1))?;
    let reply = read_reply(text)?;
    Some(Entry::Answer(OpAnswer { number, reply }))
}

fn read_reply(text: &[u8]) -> Option<Reply>
    ensures { result ≡ reply_spelled text.now }
{
    let word = field(text, 2);
    if is_word(word, b"done") {
        Some(Reply::Done)
    } else if is_word(word, b"denied") {
        read_denied(text)
    } else if is_word(word, b"waiting") {
        Some(Reply::Waiting)
    } else if is_word(word, b"already") {
        Some(Reply::Already)
    } else if is_word(word, b"store") {
        Some(Reply::Store)
    } else {
        None
    }
}

fn read_denied(text: &[u8]) -> Option<Reply>
    ensures { result ≡ denied_spelled text.now }
{
    let needs = read_octet(field(text, 4))?;
    let has = read_octet(field(text, 6))?;
    Some(Reply::Denied { needs, has })
}

fn read_sound(word: &[u8]) -> Option<Buzzer>
    ensures { result ≡ sound_of word.now }
{
    if is_word(word, b"off") {
        Some(Buzzer::Off)
    } else if is_word(word, b"fault") {
        Some(Buzzer::Fault)
    } else if is_word(word, b"fire") {
        Some(Buzzer::Fire)
    } else {
        None
    }
}
