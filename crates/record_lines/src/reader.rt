//! Reading a record that comes in pieces.

ghost use Rattle.std.specs.Prelude.{◌≡◌, ◌≤◌, ◌<◌, ◌+◌, [], ℕ, List, None, Some, IfSome, true, false, length};
ghost use Rattle.std.specs.Prelude.{slice_get, take};
ghost use Rattle.std.specs.List.{list_all};
ghost use Rattle.record_lines.specs.Belongs.{StepBelongs};
ghost use Rattle.record_lines.specs.Lines.{is_printable as is_printable_byte, next_number, reading_of};
ghost use Rattle.record_lines.specs.ReadBack.{Brings, BringsSeats, StepMayCome};
ghost use Rattle.record_lines.specs.declared.line.Line.TheVariants.{Event as EventLine, Order as OrderLine};
ghost use Rattle.record_lines.specs.declared.line.Line.TheVariants.{Tick as TickLine};
ghost use Rattle.record_lines.specs.declared.ticks_so_far.TicksSoFar.{TicksSoFar as TicksSoFarOf};
ghost use Rattle.record_lines.specs.Stands.{Accepts, EndsLine, Feeds, IsOpen, Keeps, Refuses, StandsFor, Stops};
ghost use Rattle.record_lines.specs.Stands.{TakesByte, TakesLine, over_step};
ghost use Rattle.site_types.specs.Valid.{IsValid};
ghost use Rattle.site_types.specs.declared.event.Event.TheVariants.{Point as PointEvent};
ghost use Rattle.site_types.specs.declared.site.Site.{Site as SiteOf};
ghost use Rattle.tick_units.specs.Ticks.{last_tick};
ghost use Rattle.tick_units.specs.declared.seat.Seat.{Seat as SeatOf};

use crate::fed::Fed;
use crate::judge::judge;
use crate::line::Line;
use crate::over::Over;
use crate::refusal::Refusal;
use crate::step::Step;
use crate::ticks_so_far::TicksSoFar;
use crate::usual_lines::{order_in_front, report_in_front, tick_in_front};
use crate::why::Why;
use arrayvec::ArrayVec;
use site_types::{Event, PointState, Site};
use tick_units::{LAST_TICK, Order, Seat, Tick};

/// Reads the lines of a record, however its bytes are cut into pieces.
#[derive(Drop)]
pub struct LineReader {
    so_far: TicksSoFar,
    // The number of the line that comes next.
    number: u64,
    // What has come of it.
    text: ArrayVec<u8, 512>,
    over: Option<Over>,
}

impl LineReader {
    /// A reader at the beginning of a record.
    pub fn new() -> LineReader
        ensures { (site : SiteOf) → StandsFor site [] result }
    {
        LineReader {
            so_far: TicksSoFar {
                ticks: 0,
                has_order: false,
            },
            number: 1,
            text: ArrayVec::new(),
            over: None,
        }
    }

    /// Takes a piece of the record, up to and with the first line end or the first byte that is refused.
    /// `Line` uses at least one byte. After the line `end` or a refusal the answer is the same for every
    /// piece, and none of its bytes is used.
    pub fn feed(&mut self, site: &Site, piece: &[u8]) -> Fed
        requires { IsValid site.now }
        ensures feeds { (before : List ℕ) → StandsFor site.now before self.old
            → Feeds site.now before piece.now result self.new }

        // A tick, an event and an order are the site's, and each line comes where it may come.
        ensures belongs { StepBelongs site.now result.step }
        ensures may_come { (before : List ℕ) → StandsFor site.now before self.old
            → StepMayCome site.now (reading_of site.now before).so_far result.step }
    {
        if let Some(over) = self.over {
            return Fed {
                used: 0,
                step: again(over),
            };
        }
        if let Some(used) = self.next_tick(piece) {
            let tick = Tick(self.so_far.ticks + 1);
            self.accept_tick(tick);
            return Fed {
                used,
                step: Step::Line(Line::Tick(tick)),
            };
        }
        match piece {
            [b'o', ..] => self.feed_order(site, piece),
            _ => self.feed_event(site, piece),
        }
    }

    // Takes a piece that may begin with the tick's order, where the reader isn't over. Room for an order is made here
    // alone.
    #[inline(never)]
    fn feed_order(&mut self, site: &Site, piece: &[u8]) -> Fed
        requires valid { IsValid site.now }
        requires open { self.old.over ≡ None }
        ensures feeds { (before : List ℕ) → StandsFor site.now before self.old
            → Feeds site.now before piece.now result self.new }
        ensures belongs { StepBelongs site.now result.step }
        ensures may_come { StepMayCome site.now self.old.so_far result.step }
    {
        let mut seats = ArrayVec::new();
        if let Some(used) = self.next_seats(piece, &mut seats) {
            if let Some(order) = Order::of(seats, site.panels) {
                self.accept_order();
                return Fed {
                    used,
                    step: Step::Line(Line::Order(order)),
                };
            }
        }
        self.feed_any(site, piece)
    }

    // Takes a piece that may begin with what a point is at, where the reader isn't over.
    #[inline(never)]
    fn feed_event(&mut self, site: &Site, piece: &[u8]) -> Fed
        requires valid { IsValid site.now }
        requires open { self.old.over ≡ None }
        ensures feeds { (before : List ℕ) → StandsFor site.now before self.old
            → Feeds site.now before piece.now result self.new }
        ensures belongs { StepBelongs site.now result.step }
        ensures may_come { StepMayCome site.now self.old.so_far result.step }
    {
        if let Some((used, point, state)) = self.next_report(site, piece) {
            self.begin_line();
            return Fed {
                used,
                step: Step::Line(Line::Event(Event::Point { point, state })),
            };
        }
        self.feed_any(site, piece)
    }

    // How many bytes of a piece the line of the next tick takes, if the piece begins with it.
    fn next_tick(&self, piece: &[u8]) -> Option<usize>
        ensures brings { (site : SiteOf) → IfSome result (λ used. Brings site self.now
            (TickLine (record { 0 = self.now.so_far.ticks + 1 })) piece.now used) }
        ensures goes_on { IfSome result (λ _. self.now.so_far.ticks < last_tick) }
    {
        if !self.text.is_empty() || self.so_far.ticks >= LAST_TICK {
            return None;
        }
        tick_in_front(piece, Tick(self.so_far.ticks + 1))
    }

    // How many bytes of a piece the line of the tick's order takes, if the piece begins with it, and its seats.
    fn next_seats(&self, piece: &[u8], seats: &mut ArrayVec<Seat, 65>) -> Option<usize>
        requires { seats.old.items ≡ [] }
        ensures { IfSome result (λ used. BringsSeats self.now seats.new.items piece.now used) }
    {
        if !self.text.is_empty() || self.so_far.ticks == 0 || self.so_far.has_order {
            return None;
        }
        order_in_front(piece, seats)
    }

    // How many bytes of a piece the line of a point takes, if the piece begins with it, the point and what it is at.
    fn next_report(&self, site: &Site, piece: &[u8]) -> Option<(usize, u16, PointState)>
        requires { IsValid site.now }
        ensures { IfSome result (λ found.
            Brings site.now self.now (EventLine (PointEvent found.1 found.2)) piece.now found.0) }
    {
        if !self.text.is_empty() || self.so_far.ticks == 0 {
            return None;
        }
        report_in_front(site, piece)
    }

    // Takes a piece of which nothing is known, where the reader isn't over.
    #[inline(never)]
    fn feed_any(&mut self, site: &Site, piece: &[u8]) -> Fed
        requires valid { IsValid site.now }
        requires open { self.old.over ≡ None }
        ensures feeds { (before : List ℕ) → StandsFor site.now before self.old
            → Feeds site.now before piece.now result self.new }
        ensures belongs { StepBelongs site.now result.step }
        ensures may_come { StepMayCome site.now self.old.so_far result.step }
    {
        let kept = self.keep(piece);
        match piece.get(kept) {
            None => Fed {
                used: kept,
                step: Step::Need,
            },
            Some(byte) => Fed {
                used: kept + 1,
                step: self.take_last(site, *byte),
            },
        }
    }

    /// The refusal of a record that ends here without its line `end`. It is meant for a reader that answered
    /// neither that line nor a refusal.
    pub fn finish(&self) -> Refusal
        ensures { (site : SiteOf) (before : List ℕ) → StandsFor site before self.now
            → (reading_of site before).ending ≡ None
            → result ≡ record { line = (reading_of site before).number; why = Why.Truncated } }
    {
        Refusal {
            line: self.number,
            why: Why::Truncated,
        }
    }

    // Puts the front of a piece behind what has come of the line: its printable bytes, as far as there is
    // room. Answers how many these are.
    fn keep(&mut self, piece: &[u8]) -> usize
        ensures keeps { Keeps self.old piece.now result self.new }
        ensures stops { (byte : ℕ) → slice_get piece.now result ≡ Some byte → Stops self.new byte }
    {
        let room = self.text.remaining_capacity().min(piece.len());
        let count = printable_count(piece.split_at(room).0);
        match self.text.try_extend_from_slice(piece.split_at(count).0) {
            Ok(()) => count,
            Err(_) => unreachable!(),
        }
    }

    // Takes the byte that ends the line, or that is refused.
    fn take_last(&mut self, site: &Site, byte: u8) -> Step
        requires valid { IsValid site.now }
        requires open { self.old.over ≡ None }
        requires stops { Stops self.old byte }
        ensures ends { EndsLine result }
        ensures belongs { StepBelongs site.now result }
        ensures may_come { StepMayCome site.now self.old.so_far result }
        ensures takes { (before : List ℕ) → IsOpen site.now before self.old
            → TakesByte site.now before byte self.new result }
    {
        if byte == b'\n' {
            self.take_line(site)
        } else if self.text.is_full() {
            self.refuse(Why::LineTooLong)
        } else {
            self.refuse(Why::NotAscii)
        }
    }

    fn take_line(&mut self, site: &Site) -> Step
        requires { IsValid site.now }
        ensures takes { TakesLine site.now self.old self.new result }
        ensures belongs { StepBelongs site.now result }
        ensures may_come { StepMayCome site.now self.old.so_far result }
    {
        match judge(site, &self.so_far, &self.text) {
            Ok(line) => {
                self.accept(&line);
                Step::Line(line)
            }
            Err(why) => self.refuse(why),
        }
    }

    // Goes on behind a line.
    fn accept(&mut self, line: &Line)
        ensures { Accepts self.old line.now self.new }
    {
        match line {
            Line::Tick(tick) => self.accept_tick(*tick),
            Line::Event(_) => self.begin_line(),
            Line::Order(_) => self.accept_order(),
            Line::End => {
                self.begin_line();
                self.over = Some(Over::Ended);
            }
        }
    }

    fn accept_tick(&mut self, tick: Tick)
        ensures { Accepts self.old (TickLine tick) self.new }
    {
        self.begin_line();
        self.so_far = TicksSoFar {
            ticks: tick.0,
            has_order: false,
        };
    }

    fn accept_order(&mut self)
        ensures { (order : List SeatOf) → Accepts self.old (OrderLine order) self.new }
    {
        self.begin_line();
        self.so_far.has_order = true;
    }

    // Makes room for the next line.
    fn begin_line(&mut self)
        ensures counts { self.new.number ≡ next_number self.old.number }
        ensures keeps { self.new.text.items ≡ [] }
        ensures stands { self.new.so_far ≡ self.old.so_far }
        ensures ends { self.new.over ≡ self.old.over }
    {
        self.number = self.number.saturating_add(1);
        self.text.clear();
    }

    fn refuse(&mut self, why: Why) -> Step
        ensures refuses { Refuses self.old why self.new result }
        ensures belongs { (site : SiteOf) → StepBelongs site result }
        ensures may_come { (site : SiteOf) (so_far : TicksSoFarOf)
            → StepMayCome site so_far result }
    {
        let refusal = Refusal {
            line: self.number,
            why,
        };
        self.over = Some(Over::Refused(refusal));
        Step::Refused(refusal)
    }
}

// The answer of a reader that is over.
fn again(over: Over) -> Step
    ensures step { result ≡ over_step over }
    ensures belongs { (site : SiteOf) → StepBelongs site result }
    ensures may_come { (site : SiteOf) (so_far : TicksSoFarOf) → StepMayCome site so_far result }
{
    match over {
        Over::Ended => Step::Line(Line::End),
        Over::Refused(refusal) => Step::Refused(refusal),
    }
}

// How many bytes at the front of a text are printable. Most lines are printable throughout, so they are
// scanned by eights.
fn printable_count(text: &[u8]) -> usize
    ensures within { result ≤ length text.now }
    ensures front { list_all is_printable_byte (take result text.now) ≡ true }
    ensures stops { (byte : ℕ) → slice_get text.now result ≡ Some byte
        → is_printable_byte byte ≡ false }
{
    let scanned = printable_eights(text);
    scanned + printable_singles(&text[scanned..])
}

// How many bytes at the front of a text are in eights that are printable. The tests of an eight are joined
// without a branch for each byte.
fn printable_eights(text: &[u8]) -> usize
    ensures within { result ≤ length text.now }
    ensures front { list_all is_printable_byte (take result text.now) ≡ true }
{
    let mut count = 0;
    let mut rest = text;
    while let [
        first,
        second,
        third,
        fourth,
        fifth,
        sixth,
        seventh,
        eighth,
        behind @ ..,
    ] = rest
    {
        let are_printable = is_printable(*first)
            & is_printable(*second)
            & is_printable(*third)
            & is_printable(*fourth)
            & is_printable(*fifth)
            & is_printable(*sixth)
            & is_printable(*seventh)
            & is_printable(*eighth);
        if !are_printable {
            return count;
        }
        count += 8;
        rest = behind;
    }
    count
}

// How many bytes at the front of a text are printable, one by one.
fn printable_singles(text: &[u8]) -> usize
    ensures within { result ≤ length text.now }
    ensures front { list_all is_printable_byte (take result text.now) ≡ true }
    ensures stops { (byte : ℕ) → slice_get text.now result ≡ Some byte
        → is_printable_byte byte ≡ false }
{
    for (place, byte) in text.iter().enumerate() {
        if !is_printable(*byte) {
            return place;
        }
    }
    text.len()
}

fn is_printable(byte: u8) -> bool
    ensures { result ≡ is_printable_byte byte }
{
    byte >= 32 && byte <= 126
}
