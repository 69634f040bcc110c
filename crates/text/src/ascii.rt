//! The quick ways over ASCII, which most log lines are.
ghost use Rattle.text.specs.Splits.{Skipped};

use std::simd::prelude::*;

// What follows the first blocks of 64 bytes that are ASCII.
// A vector over slices: with `split_first_chunk` a text of two- or of four-byte characters was measured slower (docs/speed.md).
pub(crate) fn after_blocks(text: &[u8]) -> &[u8]
    ensures { Skipped text.now result.now }
{
    let mut rest = text;
    while rest.len() >= 64 {
        let lanes = u8x64::from_slice(&rest[0..64]);
        if lanes.reduce_or() >= 0x80 {
            break;
        }
        rest = &rest[64..];
    }
    rest
}

// What follows the ASCII bytes at the front.
// A loop: with `position`, which is a call, a text of four-byte characters was measured slower (docs/speed.md).
pub(crate) fn after_bytes(text: &[u8]) -> &[u8]
    ensures { Skipped text.now result.now }
{
    let mut rest = text;
    while let [b, more @ ..] = rest
        && b.is_ascii()
    {
        rest = more;
    }
    rest
}
