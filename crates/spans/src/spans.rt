//! A sound span of a text.
ghost use Rattle.std.specs.Prelude.{◌≡◌};
ghost use Rattle.spans.specs.Sound.{Sound};

use crate::faults::SpanFault;
use crate::sound::check_span;
use text::within_limit;

/// A part of a text, by the offsets of its start and its end.
// No derived equality: it would compare the texts byte by byte, and pest compares where they lie.
#[derive(Clone, Copy)]
pub struct Span<'i> {
    input: &'i [u8],
    start: u32,
    end: u32,
    ghost sound: { Sound input.now start end },
}

impl<'i> Span<'i> {
    ghost use Rattle.spans.specs.Opened.{Opened};

    /// The span of `input` from `start` to `end`. Refused where the text is over the limit, and where the span is unsound.
    pub fn new(input: &'i [u8], start: u32, end: u32) -> Result<Span<'i>, SpanFault>
        ensures { Opened input.now start end result }
    {
        within_limit(input)?;
        check_span(input, start, end)?;
        Ok(Span { input, start, end })
    }

    /// The offset at which the span starts.
    pub fn start(&self) -> u32
        ensures { result ≡ self.now.start }
    {
        self.start
    }

    /// The offset at which the span ends.
    pub fn end(&self) -> u32
        ensures { result ≡ self.now.end }
    {
        self.end
    }
}
