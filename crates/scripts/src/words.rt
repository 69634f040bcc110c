//! The words of a script line, each with its place in the line.
ghost use Rattle.std.specs.Prelude.{◌≡◌, min, length, drop};
ghost use Rattle.scripts.specs.Parts.{up_to};
ghost use Rattle.scripts.specs.Words.{word_of, part_bytes, key, numeral, tail};

use crate::parts::{before, onward};

/// A part of a line, with the offset in the line at which it begins.
#[derive(Clone, Copy, Debug, PartialEq, Eq, Hash)]
pub enum Word<'l> {
    /// What a line begins with: which command it is.
    Keyword { place: usize, bytes: &'l [u8] },
    /// What stands where a number is wanted; its digits are not looked at here.
    Number { place: usize, text: &'l [u8] },
    /// All that is left of the line.
    Rest { place: usize, bytes: &'l [u8] },
}

impl<'l> Word<'l> {
    /// The word's bytes.
    pub fn bytes(self) -> &'l [u8]
        ensures { result.now ≡ part_bytes (word_of self.entry) }
    {
        match self {
            Word::Keyword { bytes, .. }
            | Word::Number { text: bytes, .. }
            | Word::Rest { bytes, .. } => bytes,
        }
    }
}

/// The keyword: the bytes before the line's first space, or the whole line.
pub fn keyword(line: &[u8]) -> Word<'_>
    ensures { word_of result ≡ key 0 (up_to 32 line.now) }
{
    Word::Keyword {
        place: 0,
        bytes: before(line, b' '),
    }
}

/// The text of a number: the bytes from `from` to the next space or the line's end.
/// Where `from` is past the end it is empty, at the end.
pub fn number(line: &[u8], from: usize) -> Word<'_>
    ensures { word_of result
        ≡ numeral (min from (length line.now)) (up_to 32 (drop from line.now)) }
{
    Word::Number {
        place: from.min(line.len()),
        text: before(onward(line, from), b' '),
    }
}

/// The rest of the line from `from` on. Where `from` is past the end it is empty, at the end.
pub fn rest(line: &[u8], from: usize) -> Word<'_>
    ensures { word_of result ≡ tail (min from (length line.now)) (drop from line.now) }
{
    Word::Rest {
        place: from.min(line.len()),
        bytes: onward(line, from),
    }
}
