// The words of the input, which blanks and line ends part from each other, and what they write: a number, up to sixteen of them
// with commas between, or, in hexadecimal.rt, a list. A word that is missing or does not write what is asked for gives None.
use modes::Kind;
use std::str;

// What is left of the input.
#[derive(Drop)]
pub(crate) struct Words<'a> {
    rest: &'a [u8],
}

fn is_gap(byte: &u8) -> bool {
    matches!(byte, b' ' | b'\n')
}

// The number that a whole text of decimal digits writes. `parse` would let a plus sign stand before them.
fn decimal(digits: &str) -> Option<u32> {
    if digits.starts_with('+') {
        return None;
    }
    digits.parse().ok()
}

impl<'a> Words<'a> {
    pub(crate) fn new(text: &'a [u8]) -> Self {
        Words { rest: text }
    }

    pub(crate) fn word(&mut self) -> Option<&'a str> {
        let start = self.rest.iter().position(|byte| !is_gap(byte))?;
        let text = &self.rest[start..];
        let end = text.iter().position(is_gap).unwrap_or(text.len());
        let (word, rest) = text.split_at(end);
        self.rest = rest;
        str::from_utf8(word).ok()
    }

    pub(crate) fn number(&mut self) -> Option<u32> {
        decimal(self.word()?)
    }

    // The numbers that a word lists, 0 where none is written.
    pub(crate) fn numbers(&mut self) -> Option<[u32; 16]> {
        let mut numbers = [0; 16];
        for (k, entry) in self.word()?.split(',').enumerate() {
            *numbers.get_mut(k)? = decimal(entry)?;
        }
        Some(numbers)
    }

    // How many elements are to be lent.
    pub(crate) fn room(&mut self) -> Option<usize> {
        usize::try_from(self.number()?).ok()
    }

    pub(crate) fn kind(&mut self) -> Option<Kind> {
        match self.word()? {
            "data" => Some(Kind::Data),
            "bch" => Some(Kind::Bch),
            _ => None,
        }
    }
}
