//! Printing a line.

ghost use Rattle.std.specs.Prelude.{◌≡◌, ◌<◌, ◌≤◌, ◌+◌, ◌++◌, ◌∷◌, [], decimal, length, map};
ghost use Rattle.record_lines.specs.Printed.{action_fields, code_text, event_text, item_fields, joined, line_text};
ghost use Rattle.record_lines.specs.Printed.{seat_text};
ghost use Rattle.record_lines.specs.ReadBack.{ReadsBack};
ghost use Rattle.site_types.specs.Valid.{IsValid};

use crate::line::Line;
use crate::print_words::{
    bad_word, letter, on_word, output_name, piece_state_word, point_name, point_state_word,
    supply_word, up_word, zone_name,
};
use arrayvec::ArrayVec;
use itoa::Buffer;
use site_types::{Event, Item, Label, Operation, Site};
use tick_units::{Order, Seat, Task};

/// Writes the text of a line, without its line end. A name that the site hasn't is written as nothing.
pub fn print_line(site: &Site, line: &Line, out: &mut ArrayVec<u8, 512>)
    requires { out.old.items ≡ [] }
    ensures text { out.new.items ≡ line_text site.now line.now }

    // With a line end behind it, what is printed is read as the line by a reader that stands where the line may come.
    ensures read_back { IsValid site.now → ReadsBack site.now line.now out.new.items }
{
    write_line(site, line, out);
}

fn write_line(site: &Site, line: &Line, out: &mut ArrayVec<u8, 512>)
    requires { out.old.items ≡ [] }
    ensures { out.new.items ≡ line_text site.now line.now }
{
    match line {
        Line::Tick(tick) => {
            push(out, b"tick");
            push_number(out, tick.0);
        }
        Line::Event(event) => print_event(site, event, out),
        Line::Order(order) => {
            push(out, b"order");
            push_seats(out, order);
        }
        Line::End => push(out, b"end"),
    }
}

fn print_event(site: &Site, event: &Event, out: &mut ArrayVec<u8, 512>)
    requires { out.old.items ≡ [] }
    ensures { out.new.items ≡ event_text site.now event.now }
{
    match *event {
        Event::Point { point, state } => {
            push(out, b"point");
            push_field(out, point_name(site, point));
            push_field(out, point_state_word(state));
        }
        Event::Cable {
            panel,
            line,
            piece,
            state,
        } => {
            push(out, b"cable");
            push_number(out, panel as u64);
            push_number(out, line as u64);
            push_number(out, piece as u64);
            push_field(out, piece_state_word(state));
        }
        Event::Supply { panel, kind, bad } => {
            push(out, b"supply");
            push_number(out, panel as u64);
            push_field(out, supply_word(kind));
            push_field(out, bad_word(bad));
        }
        Event::Link { link, up } => {
            push(out, b"link");
            push_number(out, link as u64);
            push_field(out, up_word(up));
        }
        Event::Confirmed { output } => {
            push(out, b"routing");
            push_field(out, output_name(site, output));
            push_field(out, b"confirmed");
        }
        Event::Op {
            panel,
            code,
            operation,
        } => {
            push(out, b"op");
            push_number(out, panel as u64);
            push_code(out, &code);
            push_action(site, operation, out);
        }
    }
}

fn push_code(out: &mut ArrayVec<u8, 512>, code: &Option<Label>)
    requires { length out.old.items ≤ 100 }
    ensures text { out.new.items ≡ out.old.items ++ 32 ∷ code_text code.now }
    ensures room { length out.new.items ≤ length out.old.items + 17 }
{
    match code {
        Some(code) => push_field(out, code.as_str().as_bytes()),
        None => push_field(out, b"-"),
    }
}

fn push_action(site: &Site, operation: Operation, out: &mut ArrayVec<u8, 512>)
    requires { length out.old.items ≤ 200 }
    ensures { out.new.items ≡ joined out.old.items (action_fields site.now operation) }
{
    match operation {
        Operation::Mute => push_field(out, b"mute"),
        Operation::Override => push_field(out, b"override"),
        Operation::Silence => push_field(out, b"silence"),
        Operation::Resound => push_field(out, b"resound"),
        Operation::Reset => push_field(out, b"reset"),
        Operation::Clear => push_field(out, b"clear"),
        Operation::Cancel(zone) => push_named(out, b"cancel", zone_name(site, zone)),
        Operation::Test(zone) => push_named(out, b"test", zone_name(site, zone)),
        Operation::Untest(zone) => push_named(out, b"untest", zone_name(site, zone)),
        Operation::Delays(on) => push_named(out, b"delays", on_word(on)),
        Operation::Disable(item) => {
            push_field(out, b"disable");
            push_item(site, item, out);
        }
        Operation::Enable(item) => {
            push_field(out, b"enable");
            push_item(site, item, out);
        }
    }
}

fn push_item(site: &Site, item: Item, out: &mut ArrayVec<u8, 512>)
    requires { length out.old.items ≤ 300 }
    ensures { out.new.items ≡ joined out.old.items (item_fields site.now item) }
{
    match item {
        Item::Point(place) => push_named(out, b"point", point_name(site, place)),
        Item::Zone(place) => push_named(out, b"zone", zone_name(site, place)),
        Item::Output(place) => push_named(out, b"output", output_name(site, place)),
    }
}

// A word and a name behind it.
fn push_named(out: &mut ArrayVec<u8, 512>, word: &[u8], name: &[u8])
    requires room { length out.old.items ≤ 400 }
    requires short { length word.now + length name.now ≤ 100 }
    ensures { out.new.items ≡ joined out.old.items (word.now ∷ name.now ∷ []) }
{
    push_field(out, word);
    push_field(out, name);
}

fn push_seats(out: &mut ArrayVec<u8, 512>, order: &Order)
    requires { length out.old.items ≤ 5 }
    ensures { out.new.items ≡ joined out.old.items (map seat_text order.now) }
{
    for place in 0..order.len() {
        push_seat(out, order.seat(place));
    }
}

fn push_seat(out: &mut ArrayVec<u8, 512>, seat: Seat)
    requires { length out.old.items ≤ 400 }
    ensures text { out.new.items ≡ out.old.items ++ 32 ∷ seat_text seat }
    ensures room { length out.new.items ≤ length out.old.items + 5 }
{
    push_field(out, &[letter(seat.task)]);
    if seat.task != Task::Keep {
        let mut digits = Buffer::new();
        push(out, digits.format(seat.panel).as_bytes());
    }
}

// A space and a number.
fn push_number(out: &mut ArrayVec<u8, 512>, number: u64)
    requires { length out.old.items ≤ 400 }
    ensures text { out.new.items ≡ out.old.items ++ 32 ∷ decimal number }
    ensures room { length out.new.items ≤ length out.old.items + 21 }
{
    let mut digits = Buffer::new();
    push_field(out, digits.format(number).as_bytes());
}

// A space and a field.
fn push_field(out: &mut ArrayVec<u8, 512>, field: &[u8])
    requires { length out.old.items + length field.now < 512 }
    ensures text { out.new.items ≡ out.old.items ++ 32 ∷ field.now }
    ensures room { length out.new.items ≡ length out.old.items + length field.now + 1 }
{
    out.push(b' ');
    push(out, field);
}

fn push(out: &mut ArrayVec<u8, 512>, text: &[u8])
    requires { length out.old.items + length text.now ≤ 512 }
    ensures text { out.new.items ≡ out.old.items ++ text.now }
    ensures room { length out.new.items ≡ length out.old.items + length text.now }
{
    let _fits = out.try_extend_from_slice(text);
}
