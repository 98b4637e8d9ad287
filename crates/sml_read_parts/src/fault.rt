//! What ends the reading of tokens.
ghost use Rattle.std.specs.Prelude.{◌≡◌};
ghost use Rattle.sml_read_parts.specs.declared.fault.Stop.TheVariants.{Memory};

use std::alloc::{AllocError, AllocFailed};

/// Why tokens are not a file.
#[derive(Clone, Copy, Drop)]
pub enum Fault {
    Unexpected(usize),
    TooDeep(usize),
    TooMany(usize),
    /// The tokens end too early.
    Ends,
}

/// Why reading stops.
#[derive(Clone, Copy, Drop)]
pub enum Stop {
    Memory,
    Fault(Fault),
}

impl From<AllocError> for Stop {
    ghost from_gives = { λ _ e. e ≡ Memory };

    fn from(_: AllocError) -> Self {
        Stop::Memory
    }
}

impl<T: Drop> From<AllocFailed<T>> for Stop {
    ghost from_gives = { λ _ e. e ≡ Memory };

    fn from(_: AllocFailed<T>) -> Self {
        Stop::Memory
    }
}
