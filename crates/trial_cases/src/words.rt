use anyhow::Result;

/// The words of a line that haven't been read yet.
#[derive(Clone, Copy)]
pub struct Words<'a> {
    rest: &'a str,
}

impl<'a> Words<'a> {
    pub fn of(line: &'a str) -> Words<'a> {
        Words { rest: line }
    }

    /// The next word, empty where there is none.
    pub fn next(&mut self) -> &'a str {
        let (word, rest) = self.rest.split_once(' ').unwrap_or((self.rest, ""));
        self.rest = rest;
        word
    }

    /// All words that are left.
    pub fn rest(&self) -> &'a str {
        self.rest
    }

    /// The next word as a number of at most 255.
    pub fn byte(&mut self) -> Result<u8> {
        Ok(self.next().parse::<u8>()?)
    }

    /// The next word as a number of at most 65,535.
    pub fn place(&mut self) -> Result<u16> {
        Ok(self.next().parse::<u16>()?)
    }

    /// The next word as a number.
    pub fn number(&mut self) -> Result<u64> {
        Ok(self.next().parse::<u64>()?)
    }
}

/// What a table has for a word.
pub fn look_up<T: Copy>(table: &[(&str, T)], word: &str) -> Option<T> {
    for (name, value) in table {
        if *name == word {
            return Some(*value);
        }
    }
    None
}
