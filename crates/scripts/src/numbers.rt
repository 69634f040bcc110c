//! The numbers of a script line.
ghost use Rattle.std.specs.Prelude.{◌≡◌, ◌≤◌, length, IfErr, IfOk};
ghost use Rattle.scripts.specs.Numbers.{number_after, number_of, pair_of, shifted};

use crate::words::number;

/// The three numbers that a pair's line gives.
#[derive(Clone, Copy, Debug, PartialEq, Eq, Hash)]
pub struct Pair {
    pub code: u32,
    pub start: u32,
    pub end: u32,
}

/// The offset in a line at which something is wrong.
#[derive(Clone, Copy, Debug, PartialEq, Eq, Hash)]
pub struct Misread {
    pub at: usize,
}

// A number of a line, and the offset in the line at which it ends.
#[derive(Clone, Copy)]
struct Found {
    value: u32,
    end: usize,
}

// The number with one digit more, or none where the byte is no digit or the number would be over 4,294,967,295.
fn shift(value: u32, byte: u8) -> Option<u32>
    ensures { result ≡ shifted value byte }
{
    let digit = char::from(byte).to_digit(10)?;
    value.checked_mul(10)?.checked_add(digit)
}

/// The value of one or more decimal digits, at most 4,294,967,295. None for any other bytes.
pub fn read_number(text: &[u8]) -> Option<u32>
    ensures { result ≡ number_of text.now }
{
    if text.is_empty() {
        return None;
    }
    // a loop: what comes of `try_fold` the prover does not find
    let mut value = 0;
    for byte in text {
        value = shift(value, *byte)?;
    }
    Some(value)
}

// The number that stands one space after `end`, or the offset at which it is wrong or would begin.
fn number_after(line: &[u8], end: usize) -> Result<Found, Misread>
    ensures value { result ≡ number_after line.now end }
    ensures found_within { IfOk result (λ f. f.end ≤ length line.now) }
    ensures within { IfErr result (λ e. e.at ≤ length line.now) }
{
    if end >= line.len() {
        return Err(Misread { at: line.len() });
    }
    let text = number(line, end + 1).bytes();
    let value = read_number(text).ok_or(Misread { at: end + 1 })?;
    Ok(Found {
        value,
        end: end + 1 + text.len(),
    })
}

/// The numbers of a line whose keyword has four bytes, each after one space and nothing after the third;
/// else the offset in the line of the number that is wrong or missing, or 0 where something follows the third.
pub fn read_pair(line: &[u8]) -> Result<Pair, Misread>
    ensures value { result ≡ pair_of line.now }
    ensures within { IfErr result (λ e. e.at ≤ length line.now) }
{
    let code = number_after(line, 4)?;
    let start = number_after(line, code.end)?;
    let end = number_after(line, start.end)?;
    if end.end < line.len() {
        return Err(Misread { at: 0 });
    }
    Ok(Pair {
        code: code.value,
        start: start.value,
        end: end.value,
    })
}
