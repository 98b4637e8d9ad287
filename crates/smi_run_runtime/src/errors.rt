//! Why calls of a runtime are refused.
ghost use Rattle.std.specs.Prelude.{◌≡◌};
ghost use Rattle.smi_run_runtime.specs.Posts.{post_error_of};

use smi_journal_entries::AddressError;

/// Why a runtime was not opened.
#[derive(Clone, Copy, Debug, Eq, PartialEq)]
pub enum OpenError {
    /// The workers are not 1 to `MAX_WORKERS`, or the starts not 1 to `MAX_STARTS`.
    BadConfig,
    /// There is not one device for each associated object.
    DeviceCount,
    /// Out of memory.
    Memory,
}

/// Why a request was not accepted.
#[derive(Clone, Copy, Debug, Eq, PartialEq)]
pub enum PostError {
    /// No object has the name.
    UnknownObject,
    /// No state of the object's class declares the action.
    UnknownAction,
    /// What is passed is unknown, repeated, missing or of the wrong kind.
    BadArgs,
    /// Out of memory.
    Memory,
    /// The object is killed, at this place of the journal.
    Dead(u64),
    /// The mailbox of the object is full.
    Full,
}

impl From<AddressError> for PostError {
    ghost from_gives = { λ error e. e ≡ post_error_of error };

    fn from(error: AddressError) -> Self {
        match error {
            AddressError::UnknownObject => PostError::UnknownObject,
            AddressError::UnknownAction => PostError::UnknownAction,
            AddressError::BadArgs => PostError::BadArgs,
            AddressError::Memory => PostError::Memory,
        }
    }
}

/// Why an object was not killed.
#[derive(Clone, Copy, Debug, Eq, PartialEq)]
pub enum KillError {
    /// No object has the name.
    UnknownObject,
    /// Out of memory.
    Memory,
    /// It was killed before, at this place of the journal.
    AlreadyDead(u64),
}

/// Why there is no report.
#[derive(Clone, Copy, Debug, Eq, PartialEq)]
pub enum FinishError {
    /// A session is not among those that have left.
    Missing,
    /// Out of memory.
    Memory,
}
