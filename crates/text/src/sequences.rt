//! One sequence of Table 3-7 at the front of a text.
ghost use Rattle.std.specs.Prelude.{◌↔◌, IsTrue, MatchOption};
ghost use Rattle.text.specs.Sequences.{count, LengthOf, LeadsNone};
ghost use Rattle.text.specs.Splits.{Front, FrontsNone};
ghost use Rattle.text.specs.Table.{In, Second};

/// How many bytes a sequence has.
// an enum, and no number: a match has no arm for a length that no row has
#[derive(Clone, Copy, PartialEq, Eq, Debug)]
pub enum SequenceLength {
    One,
    Two,
    Three,
    Four,
}

/// How long the sequences are that begin with the byte `lead`, or `None` where no row of the table begins with it.
pub fn sequence_length(lead: u8) -> Option<SequenceLength>
    ensures { MatchOption result (LeadsNone lead) (λ n. LengthOf lead (count n)) }
{
    match lead {
        0x00..=0x7F => Some(SequenceLength::One),
        0xC2..=0xDF => Some(SequenceLength::Two),
        0xE0..=0xEF => Some(SequenceLength::Three),
        0xF0..=0xF4 => Some(SequenceLength::Four),
        _ => None,
    }
}

// Whether `b` may come second, after `lead`.
fn second_fits(lead: u8, b: u8) -> bool
    ensures { IsTrue result ↔ Second lead b }
{
    match lead {
        0xE0 => matches!(b, 0xA0..=0xBF),
        0xED => matches!(b, 0x80..=0x9F),
        0xF0 => matches!(b, 0x90..=0xBF),
        0xF4 => matches!(b, 0x80..=0x8F),
        _ => tail_fits(b),
    }
}

// Whether `b` may come third or fourth.
fn tail_fits(b: u8) -> bool
    ensures { IsTrue result ↔ In 0x80 0xBF b }
{
    matches!(b, 0x80..=0xBF)
}

// What follows the first sequence, or `None` where the text begins with none.
pub(crate) fn after_sequence(text: &[u8]) -> Option<&[u8]>
    ensures { MatchOption result (FrontsNone text.now) (λ t. Front text.now t.now) }
{
    let lead = text.first()?;
    // a pattern for each length names the sequence's bytes and what follows them
    match sequence_length(*lead)? {
        SequenceLength::One => match text {
            [_, rest @ ..] => Some(rest),
            _ => None,
        },
        SequenceLength::Two => match text {
            [a, b, rest @ ..] if second_fits(*a, *b) => Some(rest),
            _ => None,
        },
        SequenceLength::Three => match text {
            [a, b, c, rest @ ..] if second_fits(*a, *b) && tail_fits(*c) => Some(rest),
            _ => None,
        },
        SequenceLength::Four => match text {
            [a, b, c, d, rest @ ..] if second_fits(*a, *b) && tail_fits(*c) && tail_fits(*d) =>
                Some(rest),
            _ => None,
        },
    }
}
