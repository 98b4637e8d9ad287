//! The rules of journals, by their names.
ghost use Rattle.std.specs.Prelude.{Some};
ghost use Rattle.smi_audit_rules.specs.RuleText.{rule_text};

use std::fmt;

/// A rule of journals. Which entries are to keep which rules, and in which order they are tried, is in
/// docs/FORMATS.md ("What a journal is judged by"). It is displayed by its name.
#[derive(Clone, Copy, Debug, Eq, PartialEq)]
pub enum Rule {
    /// The posts of one send follow one another, with nothing between them.
    Split,
    /// What is killed neither starts anything nor is killed again.
    Killed,
    /// Nothing starts where an action is open.
    Open,
    /// Starts and accepted posts are numbered in order.
    Number,
    /// What starts for an object was posted by it under this number.
    NotSent,
    /// What starts for an operator is an action of the object's class, with its arguments.
    BadRequest,
    /// What is shown, ended or failed is an open action.
    NotOpen,
    /// An action shows and ends what its block means.
    Meaning,
    /// A post is answered `Dead` exactly if its target is killed.
    Dead,
    /// A wait is for an object that is busy.
    Clear,
    /// What is read is not busy.
    Busy,
    /// A state that is read is the object's state.
    Reading,
    /// A device's action ends in a state of the object's class.
    NotAState,
}

impl fmt::Display for Rule {
    ghost output = { λ r. Some (rule_text r) };

    fn fmt<W: fmt::Write>(&self, f: &mut fmt::Formatter<W>) -> fmt::Result {
        f.write_str(match *self {
            Rule::Split => "Split",
            Rule::Killed => "Killed",
            Rule::Open => "Open",
            Rule::Number => "Number",
            Rule::NotSent => "NotSent",
            Rule::BadRequest => "BadRequest",
            Rule::NotOpen => "NotOpen",
            Rule::Meaning => "Meaning",
            Rule::Dead => "Dead",
            Rule::Clear => "Clear",
            Rule::Busy => "Busy",
            Rule::Reading => "Reading",
            Rule::NotAState => "NotAState",
        })
    }
}
