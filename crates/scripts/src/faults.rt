//! Why a script is refused, and at which of its lines.
ghost use Rattle.std.specs.Prelude.{◌≡◌, Some};
ghost use Rattle.scripts.specs.Faults.{refusal_of, refusal_line};
ghost use Rattle.scripts.specs.declared.faults.ScriptFault.TheVariants.{Builder, Build};
ghost use Rattle.scripts.specs.declared.faults.ScriptError.TheVariants.{Refused, NoMemory};

use builders::builds::{BuildFault, RefusedBuild};
use builders::faults::BuilderFault;
use std::alloc::AllocError;
use std::fmt;
use text::refusals::Refusal;

/// What is wrong with a script.
#[derive(Clone, Copy, Debug, PartialEq, Eq)]
pub enum ScriptFault {
    /// Another line than a script may have there, a missing line, a wrong number, or a byte over the size, at this offset of the script.
    Other { place: u32 },
    /// No rule has this code.
    NoRule { code: u32 },
    /// The builder refuses a pair, a tag or the end of a pair.
    Builder(BuilderFault),
    /// What the script has made cannot be built.
    Build(BuildFault),
}

impl From<BuilderFault> for ScriptFault {
    ghost from_gives = { λ e r. r ≡ Builder e };

    fn from(e: BuilderFault) -> ScriptFault {
        ScriptFault::Builder(e)
    }
}

impl From<BuildFault> for ScriptFault {
    ghost from_gives = { λ e r. r ≡ Build e };

    fn from(e: BuildFault) -> ScriptFault {
        ScriptFault::Build(e)
    }
}

impl From<RefusedBuild> for ScriptFault {
    ghost from_gives = { λ e r. r ≡ Build e.fault };

    fn from(e: RefusedBuild) -> ScriptFault {
        ScriptFault::from(e.fault)
    }
}

/// A script's fault, with the number from 1 of the line that is refused.
#[derive(Clone, Copy, Debug, PartialEq, Eq)]
pub struct ScriptRefusal {
    pub line: u32,
    pub fault: ScriptFault,
}

impl From<ScriptFault> for Refusal {
    ghost from_gives = { λ e r. r ≡ refusal_of e };

    /// Number 18 at an offset of the script, 17 at a code, or the builder's own refusal.
    fn from(fault: ScriptFault) -> Refusal {
        match fault {
            ScriptFault::Other { place } => Refusal {
                number: 18,
                place: u64::from(place),
            },
            ScriptFault::NoRule { code } => Refusal {
                number: 17,
                place: u64::from(code),
            },
            ScriptFault::Builder(fault) => fault.into(),
            ScriptFault::Build(fault) => fault.into(),
        }
    }
}

impl From<ScriptRefusal> for Refusal {
    ghost from_gives = { λ e r. r ≡ refusal_of e.fault };

    /// The refusal of the fault, whatever its line.
    fn from(e: ScriptRefusal) -> Refusal {
        Refusal::from(e.fault)
    }
}

impl fmt::Display for ScriptRefusal {
    ghost output = { λ f. Some (refusal_line f) };

    /// The line that answers a refused script: `refused`, the number, the place, and the script's line.
    fn fmt<W: fmt::Write>(&self, f: &mut fmt::Formatter<W>) -> fmt::Result {
        let Refusal { number, place } = Refusal::from(*self);
        let line = self.line;
        write!(f, "refused {number} {place} {line}")
    }
}

/// Why there is no record of a script.
#[derive(Clone, Copy, Debug, PartialEq, Eq)]
pub enum ScriptError {
    /// The script is refused.
    Refused(ScriptRefusal),
    /// There was not memory enough, or the list that was lent had room for too few nodes.
    NoMemory,
}

impl From<ScriptRefusal> for ScriptError {
    ghost from_gives = { λ e r. r ≡ Refused e };

    fn from(e: ScriptRefusal) -> ScriptError {
        ScriptError::Refused(e)
    }
}

impl From<AllocError> for ScriptError {
    ghost from_gives = { λ _ r. r ≡ NoMemory };

    fn from(_e: AllocError) -> ScriptError {
        ScriptError::NoMemory
    }
}
