//! What a person sees of the program's streams.

use std::env;
use std::env::{Env, VarError};
use std::io::IsTerminal;

/// Which streams of the program are a terminal, where a person reads what is written as it is written.
#[derive(Clone, Copy)]
pub struct Terminals {
    /// Whether standard output is one.
    pub output: bool,
    /// Whether standard error is one. Then it is said there why something is refused, unless that is turned off, and
    /// how far a run is, if that is asked for.
    pub errors: bool,
    /// Whether standard error takes colours. It does not where it is no terminal.
    pub colours: bool,
}

impl Terminals {
    /// Those of the program. There are colours unless the environment has a `NO_COLOR` that is not empty.
    pub(crate) fn of<R: Env + AllocGlobal, W: IsTerminal, E: IsTerminal>(
        rt: &R,
        output: &W,
        errors: &E,
    ) -> Terminals {
        let is_terminal = errors.is_terminal();
        Terminals {
            output: output.is_terminal(),
            errors: is_terminal,
            colours: is_terminal && !is_set(rt, "NO_COLOR"),
        }
    }
}

// Whether a variable of the environment has a value that is not empty.
fn is_set<R: Env + AllocGlobal>(rt: &R, name: &str) -> bool {
    match env::var(rt, name) {
        Ok(value) => !value.is_empty(),
        Err(error) => error != VarError::NotPresent,
    }
}
