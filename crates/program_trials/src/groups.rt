use anyhow::Result;
use std::alloc::Global;
use trial_cases::Lines;

/// What is told of numbers that come one after the other, with those of which the same is told on one line.
#[derive(Drop)]
pub(crate) struct Groups {
    lines: Lines,
    first: u64,
    last: u64,
    /// What is told of the numbers from the first to the last; empty before any came.
    words: String,
}

impl Groups {
    pub(crate) fn new(alloc: Global) -> Groups {
        Groups {
            lines: Lines::new(alloc),
            first: 0,
            last: 0,
            words: String::new(alloc),
        }
    }

    /// Tells something of the next number.
    pub(crate) fn put(&mut self, number: u64, words: String) {
        if self.words.as_str() != words.as_str() {
            self.flush();
            self.first = number;
            self.words = words;
        }
        self.last = number;
    }

    // Writes what is told of the numbers that came so far.
    fn flush(&mut self) {
        if self.words.is_empty() {
            return;
        }
        self.lines.count("    ", self.first);
        if self.first < self.last {
            self.lines.count(" to ", self.last);
        }
        self.lines.say(": ");
        self.lines.say(self.words.as_str());
        self.lines.say("\n");
    }

    /// All that was told.
    pub(crate) fn done(self) -> Result<String> {
        let mut groups = self;
        groups.flush();
        let Groups { lines, .. } = groups;
        lines.done()
    }
}
