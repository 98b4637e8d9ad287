//! Why a line is not a line of a schedule or script.

use crate::form::Form;
use crate::verb::Verb;
use sml_text::Sign;

/// What a line has to have at a place.
#[derive(Clone, Copy, Eq, PartialEq)]
pub(crate) enum Wanted {
    Session,
    Object,
    Action,
    State,
    Parameter,
    Equals,
    Value,
    CommaOrBracket,
}

impl Wanted {
    /// Whether a token is what is wanted.
    pub(crate) fn is_met(self, form: Form) -> bool {
        match self {
            Wanted::Session => form == Form::Session,
            Wanted::Equals => form == Form::Sign(Sign::Equals),
            Wanted::Value => form == Form::Value,
            Wanted::CommaOrBracket => {
                form == Form::Sign(Sign::Comma) || form == Form::Sign(Sign::CloseBracket)
            }
            Wanted::Object | Wanted::Action | Wanted::State | Wanted::Parameter => {
                form == Form::Name
            }
        }
    }

    /// Whether it is a name.
    pub(crate) fn is_name(self) -> bool {
        matches!(
            self,
            Wanted::Object | Wanted::Action | Wanted::State | Wanted::Parameter
        )
    }
}

/// Why a line is not a line of its kind.
#[derive(Clone, Copy)]
pub(crate) enum Cause<'a> {
    TooLong,
    NotAscii,
    /// What is there is no token.
    NoToken,
    /// A comment as other languages have them.
    Comment,
    NoVerb,
    /// A verb of the other kind of lines.
    OtherKind(Verb),
    /// Something else is there, behind these bytes.
    Expected { what: Wanted, behind: &'a [u8] },
    /// A reserved word in the place of a name.
    Reserved,
    /// A digit directly behind a session.
    LongSession,
    /// More than the line may have.
    TooMuch(Verb),
    EmptyArguments,
    TooManyArguments,
    UnknownObject,
    UnknownAction,
    UnknownState,
}

/// The first thing of a line that may not be there, and its place.
#[derive(Clone, Copy)]
pub(crate) struct Fault<'a> {
    pub(crate) at: usize,
    pub(crate) cause: Cause<'a>,
}
