// The words of a line, read as numbers and reals.
use std::iter::Peekable;
use std::num::f32_from_bits_with_nan;
use std::str::SplitWhitespace;

// Sizes of tables and places above this are not taken.
const MOST_PLACES: u32 = 100000;

// The words that are still to be read.
#[derive(Drop)]
pub(crate) struct Words<'a> {
    left: Peekable<SplitWhitespace<'a>>,
}

impl<'a> Words<'a> {
    pub(crate) fn of(line: &'a str) -> Words<'a> {
        Words {
            left: line.split_whitespace().peekable(),
        }
    }

    // The next word, which stays to be read.
    pub(crate) fn peek(&mut self) -> Option<&'a str> {
        self.left.peek().copied()
    }

    pub(crate) fn word(&mut self) -> Option<&'a str> {
        self.left.next()
    }

    // Digits alone, without a sign.
    pub(crate) fn number(&mut self) -> Option<u32> {
        let word = self.word()?;
        // what reads a number takes a sign before it, and no other byte that is no digit
        if word.starts_with('+') {
            return None;
        }
        u32::from_str_radix(word, 10).ok()
    }

    pub(crate) fn size(&mut self) -> Option<usize> {
        let size = self.number()?;
        if size > MOST_PLACES {
            return None;
        }
        Some(size as usize)
    }

    // Eight hexadecimal digits, capitals only: the bit pattern.
    pub(crate) fn real(&mut self) -> Option<f32> {
        let word = self.word()?;
        if word.len() != 8
            || !word
                .bytes()
                .all(|byte| matches!(byte, b'0'..=b'9' | b'A'..=b'F'))
        {
            return None;
        }
        let bits = u32::from_str_radix(word, 16).ok()?;
        Some(f32_from_bits_with_nan(bits))
    }

    // Nothing where the line has ended.
    pub(crate) fn end(&mut self) -> Option<()> {
        match self.word() {
            Some(_) => None,
            None => Some(()),
        }
    }
}
