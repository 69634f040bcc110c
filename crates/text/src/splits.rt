//! The test for a well-formed text.
ghost use Rattle.std.specs.Option.{MatchOption};
ghost use Rattle.text.specs.Laws.{TextLaws};
ghost use Rattle.text.specs.Splits.{FrontsNone, Longest, Passed};
ghost use Rattle.text.specs.Verdicts.{Tested};

use crate::ascii::{after_blocks, after_bytes};
use crate::faults::TextFault;
use crate::limits::within_limit;
use crate::sequences::after_sequence;

// What follows some whole sequences, at least one, or `None` where the text begins with none.
fn after_some(text: &[u8]) -> Option<&[u8]>
    ensures { MatchOption result (FrontsNone text.now) (λ t. Passed text.now t.now) }
{
    let (first, rest) = text.split_first()?;
    if !first.is_ascii() {
        return after_sequence(text);
    }
    Some(after_bytes(after_blocks(rest)))
}

// Where the longest split from the start of the text ends.
fn longest_split(text: &[u8]) -> usize
    ensures { Longest text.now result }
{
    let mut rest = text;
    while let Some(more) = after_some(rest) {
        rest = more;
    }
    text.len() - rest.len()
}

/// Whether `text` is within the limit and splits into sequences of the table.
/// If not, the refusal has the length, or the offset where the first sequence begins that is none of the table's.
pub fn well_formed(text: &[u8]) -> Result<(), TextFault>
    ensures verdict { Tested text.now result }
    ensures laws { TextLaws text.now }
{
    within_limit(text)?;
    let end = longest_split(text);
    if end < text.len() {
        return Err(TextFault::Malformed { at: end as u32 });
    }
    Ok(())
}
