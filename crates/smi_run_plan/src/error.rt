//! Why a script is refused.
ghost use Rattle.std.specs.Prelude.{◌≡◌, Some};
ghost use Rattle.smi_run_plan.specs.ErrorText.{script_error_text};
ghost use Rattle.smi_run_plan.specs.declared.error.ScriptError.TheVariants.{Memory as NoMemory};

use std::alloc::AllocError;
use std::error::Error;
use std::fmt;

/// Why a text is no script.
#[derive(Clone, Copy, Debug, Eq, PartialEq)]
pub enum ScriptError {
    /// The text has more than `LONGEST_SCRIPT` bytes.
    TooLong,
    /// The first line that is not a line of a script, counted from 1.
    BadLine(u64),
    /// Out of memory.
    Memory,
}

impl From<AllocError> for ScriptError {
    ghost from_gives = { λ _ e. e ≡ NoMemory };

    fn from(_: AllocError) -> Self {
        ScriptError::Memory
    }
}

impl fmt::Display for ScriptError {
    ghost output = { λ e. Some (script_error_text e) };

    fn fmt<W: fmt::Write>(&self, f: &mut fmt::Formatter<W>) -> fmt::Result {
        match *self {
            ScriptError::TooLong => f.write_str("the script has more than 16777216 bytes"),
            ScriptError::BadLine(number) => write!(f, "bad line {number}"),
            ScriptError::Memory => f.write_str("out of memory"),
        }
    }
}

impl Error for ScriptError {}
