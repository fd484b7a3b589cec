ghost use Rattle.std.specs.Prelude.{◌≡◌};

use amq_model::{NoMemory, ScriptCause};

/// Why a script is not read.
#[derive(Clone, Copy, Debug, PartialEq, Eq, thiserror::Error)]
pub enum ScriptFault {
    /// The first line outside the grammar, counted from 1.
    #[error("script line {line}: {cause}")]
    At { line: u64, cause: ScriptCause },
    /// There was no memory.
    #[error("no memory")]
    NoMemory,
}

/// Why a line is not read.
#[derive(Clone, Copy, Debug, PartialEq, Eq)]
pub enum LineFault {
    /// It is outside the grammar.
    Wrong(ScriptCause),
    /// There was no memory.
    NoMemory,
}

impl LineFault {
    ghost use Rattle.amq_script.specs.Faults.{fault_at};

    /// The script's fault, where this is the fault of its line of that number.
    pub fn at(self, line: u64) -> ScriptFault
        ensures { result ≡ fault_at self line }
    {
        match self {
            LineFault::Wrong(cause) => ScriptFault::At { line, cause },
            LineFault::NoMemory => ScriptFault::NoMemory,
        }
    }
}

impl From<ScriptCause> for LineFault {
    ghost use Rattle.amq_script.specs.declared.faults.LineFault.TheVariants.{Wrong};

    ghost from_gives = { λ cause r. r ≡ Wrong cause };

    fn from(cause: ScriptCause) -> LineFault {
        LineFault::Wrong(cause)
    }
}

impl From<NoMemory> for LineFault {
    ghost use Rattle.amq_script.specs.declared.faults.LineFault.TheVariants as f;

    ghost from_gives = { λ _ r. r ≡ f.NoMemory };

    fn from(_: NoMemory) -> LineFault {
        LineFault::NoMemory
    }
}
