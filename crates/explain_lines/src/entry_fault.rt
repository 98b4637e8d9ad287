//! Why a line of a journal is not an entry.

use sml_domain::{ActionId, ObjId};

/// What an entry has to have at a place.
#[derive(Clone, Copy)]
pub(crate) enum Wanted {
    Object,
    Sender,
    Number,
    /// A number, or `refused full` or `refused dead`.
    Verdict,
    FullOrDead,
    Action,
    State,
    /// An object, `=` and a state.
    Reading,
    /// A state, or `skipped`.
    End,
    /// A session, or `fault`.
    Cause,
    Set,
}

/// Why a line is not an entry.
#[derive(Clone, Copy)]
pub(crate) enum EntryCause {
    NoFeed,
    Returned,
    Empty,
    /// The first word does not begin an entry.
    NoWord,
    /// The first word is not in lower case.
    UpperWord,
    /// The first word begins entries of the second format alone, and the journal is of the first.
    LaterWord,
    /// The word that the language has before a set.
    NoPreposition,
    /// A blank too many, or one at the end.
    Blank,
    Expected(Wanted),
    /// A name that is not in upper case.
    LowerName,
    UnknownObject,
    UnknownAction,
    UnknownState,
    UnknownSet,
    /// A digit behind a session, or another session.
    NoSession,
    /// The action is declared by no state of the object's class, so that nothing may be behind it.
    Undeclared(ObjId),
    /// The arguments are not spelled as those of the action.
    Arguments(ObjId, ActionId),
    TooMuch,
}

/// The first thing of a line that may not be there, and its place.
#[derive(Clone, Copy)]
pub(crate) struct EntryFault {
    pub(crate) at: usize,
    pub(crate) cause: EntryCause,
}
