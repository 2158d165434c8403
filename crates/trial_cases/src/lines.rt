use anyhow::{Result, bail};
use std::alloc::Global;

/// The text of an answer, written part by part. Want of memory shows once, when it is done.
#[derive(Drop)]
pub struct Lines {
    text: String,
    is_cut: bool,
}

impl Lines {
    pub fn new(alloc: Global) -> Lines {
        Lines {
            text: String::new(alloc),
            is_cut: false,
        }
    }

    pub fn say(&mut self, words: &str) {
        if self.text.push_str(words).is_err() {
            self.is_cut = true;
        }
    }

    pub fn number(&mut self, number: u64) {
        if write!(self.text, "{number}").is_err() {
            self.is_cut = true;
        }
    }

    /// A number that may be below 0.
    pub fn signed(&mut self, number: i64) {
        if write!(self.text, "{number}").is_err() {
            self.is_cut = true;
        }
    }

    /// Bytes, two hexadecimal digits each.
    pub fn hex(&mut self, bytes: &[u8]) {
        for byte in bytes {
            if write!(self.text, "{byte:02x}").is_err() {
                self.is_cut = true;
            }
        }
    }

    /// Words, and a number behind them.
    pub fn count(&mut self, words: &str, number: u64) {
        self.say(words);
        self.number(number);
    }

    /// Words, with a separator before them unless they are the first.
    pub fn item(&mut self, separator: &str, words: &str) {
        if !self.text.is_empty() {
            self.say(separator);
        }
        self.say(words);
    }

    /// A line on a tick.
    pub fn tick(&mut self, tick: u64, words: &str) {
        self.count("    tick ", tick);
        self.say(": ");
        self.say(words);
        self.say("\n");
    }

    pub fn is_empty(&self) -> bool {
        self.text.is_empty()
    }

    /// The whole text.
    pub fn done(self) -> Result<String> {
        if self.is_cut {
            bail!("no memory");
        }
        Ok(self.text)
    }
}
