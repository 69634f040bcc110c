//! Why a line is not done.
ghost use Rattle.std.specs.Prelude.{◌≡◌};
ghost use Rattle.scripts.specs.declared.faults.ScriptFault.TheVariants.{Builder};
ghost use Rattle.scripts.specs.declared.problems.Problem.TheVariants.{Fault, NoRoom};
ghost use Rattle.scripts.specs.Steps.{error_at};

use crate::faults::{ScriptError, ScriptFault, ScriptRefusal};
use builders::faults::BuilderFault;
use std::alloc::AllocError;

/// A fault of the line, or want of memory.
#[derive(Clone, Copy)]
pub(crate) enum Problem {
    Fault(ScriptFault),
    NoRoom,
}

impl Problem {
    /// The problem as the script's, at a line.
    pub(crate) fn at(self, line: u32) -> ScriptError
        ensures { result ≡ error_at line self }
    {
        match self {
            Problem::Fault(fault) => ScriptError::Refused(ScriptRefusal { line, fault }),
            Problem::NoRoom => ScriptError::NoMemory,
        }
    }
}

impl From<ScriptFault> for Problem {
    ghost from_gives = { λ e r. r ≡ Fault e };

    fn from(e: ScriptFault) -> Problem {
        Problem::Fault(e)
    }
}

impl From<BuilderFault> for Problem {
    ghost from_gives = { λ e r. r ≡ Fault (Builder e) };

    fn from(e: BuilderFault) -> Problem {
        Problem::Fault(ScriptFault::from(e))
    }
}

impl From<AllocError> for Problem {
    ghost from_gives = { λ _ r. r ≡ NoRoom };

    fn from(_e: AllocError) -> Problem {
        Problem::NoRoom
    }
}
