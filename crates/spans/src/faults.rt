//! Why a span is refused.
ghost use Rattle.std.specs.Prelude.{◌≡◌};
ghost use Rattle.spans.specs.Faults.{unsound_refusal, span_refusal};
ghost use Rattle.spans.specs.declared.faults.SpanFault.TheVariants.{Long, Unsound};

use text::faults::TooLong;
use text::refusals::Refusal;

/// What is wrong with an unsound span: the first of these that is true.
#[derive(Clone, Copy, PartialEq, Eq, Debug)]
pub enum SpanCause {
    StartAfterEnd,
    EndPastText,
    StartInCharacter,
    EndInCharacter,
}

/// An unsound span: where it starts, and its cause.
#[derive(Clone, Copy, PartialEq, Eq, Debug)]
pub struct UnsoundSpan {
    pub start: u32,
    pub cause: SpanCause,
}

impl From<UnsoundSpan> for Refusal {
    ghost from_gives = { λ e r. r ≡ unsound_refusal e };

    /// Number 11, at the start offset.
    fn from(e: UnsoundSpan) -> Refusal {
        Refusal {
            number: 11,
            place: u64::from(e.start),
        }
    }
}

/// What a call that is handed a text and a span, or an offset, refuses.
#[derive(Clone, Copy, PartialEq, Eq, Debug)]
pub enum SpanFault {
    /// The text is over the limit.
    Long(TooLong),
    /// The span is unsound.
    Unsound(UnsoundSpan),
}

impl From<TooLong> for SpanFault {
    ghost from_gives = { λ e r. r ≡ Long e };

    fn from(e: TooLong) -> SpanFault {
        SpanFault::Long(e)
    }
}

impl From<UnsoundSpan> for SpanFault {
    ghost from_gives = { λ e r. r ≡ Unsound e };

    fn from(e: UnsoundSpan) -> SpanFault {
        SpanFault::Unsound(e)
    }
}

impl From<SpanFault> for Refusal {
    ghost from_gives = { λ e r. r ≡ span_refusal e };

    /// Number 1 at the text's length, or number 11 at the start offset.
    fn from(e: SpanFault) -> Refusal {
        match e {
            SpanFault::Long(long) => Refusal::from(long),
            SpanFault::Unsound(unsound) => Refusal::from(unsound),
        }
    }
}
