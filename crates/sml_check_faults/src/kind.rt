//! What can be wrong with a file.
ghost use Rattle.std.specs.Prelude.{◌≡◌, Some};
ghost use Rattle.sml_check_faults.specs.KindText.{check_kind_number, check_kind_name, check_error_text, memory_error};

use sml_tree::Name;
use std::alloc::AllocError;
use std::error::Error;
use std::fmt;

/// The kinds of faults, by their numbers. (docs/LANGUAGE.md, "Well-formed files".)
#[derive(Clone, Copy, Debug, PartialEq, Eq)]
pub enum CheckKind {
    /// A name is declared twice where it has to mean one thing.
    Duplicate = 1,
    /// A class has no states.
    NoState,
    /// Two states of a class are marked as initial.
    TwoInitial,
    /// Two states of a class are marked as dead.
    TwoDead,
    /// The class of an object is not declared.
    UnknownClass,
    /// A member, a target, or an object that a test, a `wait`, an `insert` or a `remove` names is not declared.
    UnknownObject,
    /// A name behind `all_in` or `any_in`, or of what an `insert` or a `remove` changes, is not a set's.
    UnknownSet,
    /// A state is named that is not a state there.
    UnknownState,
    /// A target of a `do`, or something that its set may come to have, does not have the action.
    UnknownAction,
    /// A name is not a parameter's there.
    UnknownParam,
    /// A value is of another kind than its parameter.
    KindMismatch,
    /// A `do` leaves a parameter without a value.
    MissingArg,
    /// An action has two lists of parameters in one class.
    ParamsDiffer,
    /// A condition or a `wait` names an object of its own class, or a set that may come to have one.
    SelfInCondition,
    /// An action of an associated class has instructions.
    AssociatedBody,
    /// Out of memory.
    Memory,
}

/// The first fault of a file, and the name that is at fault. If memory ran out, the name is `NONE`. `Display`
/// is the number, the kind's word and the name, with blanks between them.
#[derive(Clone, Copy, Debug, PartialEq, Eq)]
pub struct CheckError {
    pub kind: CheckKind,
    pub name: Name,
}

impl CheckKind {
    /// Returns the kind's number, from 1 to 16.
    pub fn number(self) -> u8
        ensures { result ≡ check_kind_number self }
    {
        self as u8
    }

    /// Returns the kind's word, as `NoState`.
    pub fn name(self) -> &'static str
        ensures { result.now ≡ check_kind_name self }
    {
        match self {
            CheckKind::Duplicate => "Duplicate",
            CheckKind::NoState => "NoState",
            CheckKind::TwoInitial => "TwoInitial",
            CheckKind::TwoDead => "TwoDead",
            CheckKind::UnknownClass => "UnknownClass",
            CheckKind::UnknownObject => "UnknownObject",
            CheckKind::UnknownSet => "UnknownSet",
            CheckKind::UnknownState => "UnknownState",
            CheckKind::UnknownAction => "UnknownAction",
            CheckKind::UnknownParam => "UnknownParam",
            CheckKind::KindMismatch => "KindMismatch",
            CheckKind::MissingArg => "MissingArg",
            CheckKind::ParamsDiffer => "ParamsDiffer",
            CheckKind::SelfInCondition => "SelfInCondition",
            CheckKind::AssociatedBody => "AssociatedBody",
            CheckKind::Memory => "Memory",
        }
    }
}

impl fmt::Display for CheckKind {
    ghost output = { λ kind. Some (check_kind_name kind) };

    fn fmt<W: fmt::Write>(&self, f: &mut fmt::Formatter<W>) -> fmt::Result {
        f.write_str(self.name())
    }
}

impl fmt::Display for CheckError {
    ghost output = { λ error. Some (check_error_text error) };

    fn fmt<W: fmt::Write>(&self, f: &mut fmt::Formatter<W>) -> fmt::Result {
        write!(
            f,
            "{} {} {}",
            self.kind.number(),
            self.kind.name(),
            self.name.as_str()
        )
    }
}

impl Error for CheckKind {}

impl Error for CheckError {}

impl From<AllocError> for CheckError {
    ghost from_gives = { λ _ error. error ≡ memory_error };

    fn from(_: AllocError) -> Self {
        CheckError::memory()
    }
}

impl CheckError {
    /// Out of memory.
    pub fn memory() -> CheckError
        ensures { result ≡ memory_error }
    {
        CheckError {
            kind: CheckKind::Memory,
            name: Name::from_word(b"NONE"),
        }
    }
}
