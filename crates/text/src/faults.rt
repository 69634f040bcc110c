//! Why bytes are refused as a text.
ghost use Rattle.std.specs.Prelude.{◌≡◌};
ghost use Rattle.text.specs.Faults.{too_long_refusal, text_refusal};
ghost use Rattle.text.specs.declared.faults.TextFault.TheVariants.{Long};

use crate::refusals::Refusal;

/// More bytes than a text may have, and how many.
#[derive(Clone, Copy, PartialEq, Eq, Debug)]
pub struct TooLong {
    pub length: u64,
}

impl From<TooLong> for Refusal {
    ghost from_gives = { λ e r. r ≡ too_long_refusal e };

    /// Number 1, at the length.
    fn from(e: TooLong) -> Refusal {
        Refusal {
            number: 1,
            place: e.length,
        }
    }
}

/// What the test for a well-formed text refuses.
#[derive(Clone, Copy, PartialEq, Eq, Debug)]
pub enum TextFault {
    /// The text is over the limit.
    Long(TooLong),
    /// A sequence that is none of the table's begins here, and all before it are.
    Malformed { at: u32 },
}

impl From<TooLong> for TextFault {
    ghost from_gives = { λ e r. r ≡ Long e };

    fn from(e: TooLong) -> TextFault {
        TextFault::Long(e)
    }
}

impl From<TextFault> for Refusal {
    ghost from_gives = { λ e r. r ≡ text_refusal e };

    /// Number 1 at the length, or number 2 at the offset of the first bad sequence.
    fn from(e: TextFault) -> Refusal {
        match e {
            TextFault::Long(long) => Refusal::from(long),
            TextFault::Malformed { at } => Refusal {
                number: 2,
                place: u64::from(at),
            },
        }
    }
}
