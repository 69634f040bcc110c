//! Why a line table is not filled.
ghost use Rattle.std.specs.Prelude.{◌≡◌};
ghost use Rattle.lines.specs.Faults.{line_refusal};
ghost use Rattle.lines.specs.declared.faults.LineFault.TheVariants.{Long};

use text::faults::TooLong;
use text::refusals::Refusal;

/// What filling a line table refuses.
#[derive(Clone, Copy, PartialEq, Eq, Debug)]
pub enum LineFault {
    /// The text is over the limit.
    Long(TooLong),
    /// The buffer has fewer entries than the text has lines; how many it needs.
    Short { needed: u64 },
}

impl From<TooLong> for LineFault {
    ghost from_gives = { λ e r. r ≡ Long e };

    fn from(e: TooLong) -> LineFault {
        LineFault::Long(e)
    }
}

impl From<LineFault> for Refusal {
    ghost from_gives = { λ e r. r ≡ line_refusal e };

    /// Number 1 at the text's length, or number 12 at the number of entries needed.
    fn from(e: LineFault) -> Refusal {
        match e {
            LineFault::Long(long) => Refusal::from(long),
            LineFault::Short { needed } => Refusal {
                number: 12,
                place: needed,
            },
        }
    }
}
