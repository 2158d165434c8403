//! One line, judged by the first row of the refusals that applies.

ghost use Rattle.std.specs.Prelude.{◌≡◌, ◌≤◌, IfOk, Some, codes, length, option_map};
ghost use Rattle.site_types.specs.Fields.{after_space as behind_space, field as field_at};
ghost use Rattle.site_types.specs.Valid.{IsValid};
ghost use Rattle.site_types.specs.declared.site.Site.{Site as SiteOf};
ghost use Rattle.record_lines.specs.Forms.{OfEvent, event_form_of, form_of};
ghost use Rattle.record_lines.specs.Judged.{IsVerdict, event_line, judged, order_with, tick_as};
ghost use Rattle.record_lines.specs.ReadBack.{MayCome};
ghost use Rattle.record_lines.specs.declared.ticks_so_far.TicksSoFar.{TicksSoFar as TicksSoFarOf};

use crate::event_lines::read_event;
use crate::form::EventForm;
use crate::form_words::event_form;
use crate::line::Line;
use crate::number_fields::has_numbers;
use crate::order_lines::{make_order, read_seats};
use crate::ticks_so_far::TicksSoFar;
use crate::why::Why;
use arrayvec::ArrayVec;
use line_fields::{is_word, space_count, split_field};
use site_types::{Site, read_number};
use tick_units::{LAST_TICK, Seat, Tick};

/// The line that a text of printable bytes is where a record stands so. A record is mostly ticks, which are
/// told without a search for their space.
pub fn judge(site: &Site, so_far: &TicksSoFar, text: &[u8]) -> Result<Line, Why>
    requires valid { IsValid site.now }
    requires short { length text.now ≤ 512 }
    ensures answer { IsVerdict (judged site.now so_far.now text.now) result }
    ensures may_come { IfOk result (λ line. MayCome site.now so_far.now line) }
{
    match text {
        [b't', b'i', b'c', b'k', b' ', fields @ ..] => judge_tick(so_far, text, fields),
        _ => judge_by_word(site, so_far, text),
    }
}

// The line that a text stands for, told by its first word.
fn judge_by_word(site: &Site, so_far: &TicksSoFar, text: &[u8]) -> Result<Line, Why>
    requires valid { IsValid site.now }
    requires short { length text.now ≤ 512 }
    ensures answer { IsVerdict (judged site.now so_far.now text.now) result }
    ensures may_come { IfOk result (λ line. MayCome site.now so_far.now line) }
{
    let (word, fields) = split_field(text);
    if is_word(word, b"tick") {
        judge_tick(so_far, text, fields)
    } else if is_word(word, b"order") {
        judge_order(site, so_far, text, fields)
    } else if is_word(word, b"end") {
        judge_end(text)
    } else {
        judge_event(site, so_far, text, word)
    }
}

// A line that begins with `tick`. A number has no space, so it is the only field behind the word.
fn judge_tick(so_far: &TicksSoFar, text: &[u8], fields: &[u8]) -> Result<Line, Why>
    requires word { field_at 0 text.now ≡ codes "tick" }
    requires fields { fields.now ≡ behind_space text.now }
    ensures answer { (site : SiteOf)
        → IsVerdict (judged site so_far.now text.now) result }
    ensures may_come { (site : SiteOf) → IfOk result (λ line. MayCome site so_far.now line) }
{
    match read_number(fields) {
        Some(found) => tick(so_far, found),
        None => {
            if space_count(text) == 1 {
                Err(Why::BadNumber)
            } else {
                Err(Why::BadWord)
            }
        }
    }
}

// A line that begins with `order`.
fn judge_order(site: &Site, so_far: &TicksSoFar, text: &[u8], fields: &[u8]) -> Result<Line, Why>
    requires valid { IsValid site.now }
    requires short { length text.now ≤ 512 }
    requires word { field_at 0 text.now ≡ codes "order" }
    requires fields { fields.now ≡ behind_space text.now }
    ensures answer { IsVerdict (judged site.now so_far.now text.now) result }
    ensures may_come { IfOk result (λ line. MayCome site.now so_far.now line) }
{
    let count = space_count(text);
    let mut seats = ArrayVec::new();
    let Some(numbered) = read_seats(fields, count, &mut seats) else {
        return Err(Why::BadWord);
    };
    if count == 0 {
        return Err(Why::BadWord);
    }
    if so_far.ticks == 0 {
        return Err(Why::BeforeFirstTick);
    }
    if !numbered {
        return Err(Why::BadNumber);
    }
    order(site, so_far, &seats)
}

// A line that begins with `end`.
fn judge_end(text: &[u8]) -> Result<Line, Why>
    requires { field_at 0 text.now ≡ codes "end" }
    ensures answer { (site : SiteOf) (so_far : TicksSoFarOf)
        → IsVerdict (judged site so_far text.now) result }
    ensures may_come { (site : SiteOf) (so_far : TicksSoFarOf)
        → IfOk result (λ line. MayCome site so_far line) }
{
    if space_count(text) == 0 {
        Ok(Line::End)
    } else {
        Err(Why::BadWord)
    }
}

// A line that tells what befalls the site: its words, whether it may come, its numbers, then its names.
fn judge_event(site: &Site, so_far: &TicksSoFar, text: &[u8], word: &[u8]) -> Result<Line, Why>
    requires valid { IsValid site.now }
    requires word { word.now ≡ field_at 0 text.now }
    requires event { form_of text.now ≡ option_map OfEvent (event_form_of text.now) }
    ensures answer { IsVerdict (judged site.now so_far.now text.now) result }
    ensures may_come { IfOk result (λ line. MayCome site.now so_far.now line) }
{
    let form = match event_form(text, word) {
        Some(form) => form,
        None => return Err(Why::BadWord),
    };
    if so_far.ticks == 0 {
        return Err(Why::BeforeFirstTick);
    }
    if !has_numbers(form, text) {
        return Err(Why::BadNumber);
    }
    event(site, form, text)
}

/// The tick of this number.
pub(crate) fn tick(so_far: &TicksSoFar, found: u64) -> Result<Line, Why>
    ensures answer { result ≡ tick_as so_far.now.ticks (Some found) }
    ensures may_come { (site : SiteOf) → IfOk result (λ line. MayCome site so_far.now line) }
{
    if so_far.ticks >= LAST_TICK {
        return Err(Why::TickLimit);
    }
    let expected = so_far.ticks + 1;
    if found == expected {
        Ok(Line::Tick(Tick(found)))
    } else {
        Err(Why::BadTick { expected, found })
    }
}

fn order(site: &Site, so_far: &TicksSoFar, seats: &[Seat]) -> Result<Line, Why>
    requires valid { IsValid site.now }
    requires short { length seats.now ≤ 512 }
    requires begun { 1 ≤ so_far.now.ticks }
    ensures answer { result ≡ order_with site.now so_far.now seats.now }
    ensures may_come { IfOk result (λ line. MayCome site.now so_far.now line) }
{
    if so_far.has_order {
        return Err(Why::BadOrder { place: 0 });
    }
    match make_order(site.panels, seats) {
        Ok(order) => Ok(Line::Order(order)),
        Err(why) => Err(why),
    }
}

fn event(site: &Site, form: EventForm, text: &[u8]) -> Result<Line, Why>
    requires { IsValid site.now }
    ensures answer { IsVerdict (event_line site.now form text.now) result }
    ensures may_come { (so_far : TicksSoFarOf) → 1 ≤ so_far.ticks
        → IfOk result (λ line. MayCome site.now so_far line) }
{
    match read_event(site, form, text) {
        Some(event) => {
            if site.has_event(&event) {
                Ok(Line::Event(event))
            } else {
                Err(Why::NoSuch)
            }
        }
        None => Err(Why::NoSuch),
    }
}
