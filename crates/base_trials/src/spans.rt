//! Numbers told as spans of those that follow one another: `1 to 8, 17 to 24`.

use trial_cases::Lines;

/// The numbers told so far.
#[derive(Clone, Copy)]
pub(crate) struct Spans {
    first: u64,
    last: u64,
    /// How many spans are told already.
    told: u64,
    is_open: bool,
}

impl Spans {
    pub(crate) fn new() -> Spans {
        Spans {
            first: 0,
            last: 0,
            told: 0,
            is_open: false,
        }
    }

    /// Takes the next number.
    pub(crate) fn add(&mut self, lines: &mut Lines, number: u64) {
        if self.is_open && number == self.last.saturating_add(1) {
            self.last = number;
            return;
        }
        self.tell(lines);
        self.first = number;
        self.last = number;
        self.is_open = true;
    }

    // Tells the span that is open.
    fn tell(&mut self, lines: &mut Lines) {
        if !self.is_open {
            return;
        }
        lines.say(if self.told == 0 { " " } else { ", " });
        lines.number(self.first);
        if self.last != self.first {
            lines.count(" to ", self.last);
        }
        self.told = self.told.saturating_add(1);
    }

    /// Tells what is left, or that there was no number.
    pub(crate) fn end(mut self, lines: &mut Lines) {
        self.tell(lines);
        if self.told == 0 {
            lines.say(" nothing");
        }
    }
}
