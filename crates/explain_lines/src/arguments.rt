//! Why what a request passes is not a list of arguments of its action.

use crate::declared::{tell_action, tell_object};
use crate::words::{NameList, tell_name};
use smi_journal::Passed;
use sml_domain::{ActionId, Domain, ObjId, Param};
use sml_text::Sink;
use sml_tree::Kind;
use sml_writer::Out;

/// The first thing that is wrong with what is passed, by its place in the line or among the parameters.
#[derive(Clone, Copy)]
pub(crate) enum BadArgument {
    Unknown(usize),
    Repeated(usize),
    WrongKind(usize),
    Missing(usize),
}

// Whether a passed value has the name of a parameter.
fn is_named(params: &[Param], passed: &Passed) -> bool {
    params.iter().any(|param| passed.name == param.name)
}

// Whether a value before this place has the same name.
fn is_repeated(passed: &[Passed], place: usize) -> bool {
    match passed.get(place) {
        Some(this) => passed
            .iter()
            .take(place)
            .any(|other| this.name == other.name),
        None => false,
    }
}

// Whether a passed value is of another kind than its parameter.
fn is_of_wrong_kind(params: &[Param], passed: &Passed) -> bool {
    match params.iter().find(|param| passed.name == param.name) {
        Some(param) => param.kind != passed.value.kind(),
        None => false,
    }
}

// Whether a parameter gets no value.
fn is_missing(passed: &[Passed], param: &Param) -> bool {
    param.value.is_none() && !passed.iter().any(|one| one.name == param.name)
}

// What is wrong with the value at a place.
fn bad_at(params: &[Param], passed: &[Passed], place: usize) -> Option<BadArgument> {
    let this = passed.get(place)?;
    if !is_named(params, this) {
        Some(BadArgument::Unknown(place))
    } else if is_repeated(passed, place) {
        Some(BadArgument::Repeated(place))
    } else if is_of_wrong_kind(params, this) {
        Some(BadArgument::WrongKind(place))
    } else {
        None
    }
}

/// The first thing that is wrong, in the order of the line; a missing value is the last.
pub(crate) fn bad_argument(params: &[Param], passed: &[Passed]) -> Option<BadArgument> {
    for place in 0..passed.len() {
        if let Some(bad) = bad_at(params, passed, place) {
            return Some(bad);
        }
    }
    let missing = params.iter().position(|param| is_missing(passed, param))?;
    Some(BadArgument::Missing(missing))
}

/// Writes what is wrong with the arguments of an action at an object.
pub(crate) fn tell_bad_argument<W: Sink>(
    out: &mut Out<'_, W>,
    domain: &Domain,
    o: ObjId,
    action: ActionId,
    passed: &[Passed],
    bad: BadArgument,
) {
    let Some(params) = domain.parameters(o, action) else {
        return;
    };
    match bad {
        BadArgument::Unknown(place) => {
            tell_call(out, domain, o, action);
            tell_no_parameter(out, params, passed.get(place));
        }
        BadArgument::Repeated(place) => tell_repeated(out, passed.get(place)),
        BadArgument::WrongKind(place) => tell_kind(out, params, passed.get(place)),
        BadArgument::Missing(place) => tell_missing(out, params.get(place)),
    }
}

/// Writes an action and its object.
pub(crate) fn tell_call<W: Sink>(
    out: &mut Out<'_, W>,
    domain: &Domain,
    o: ObjId,
    action: ActionId,
) {
    tell_action(out, domain, action);
    out.say(b" of ");
    tell_object(out, domain, o);
}

// Writes that no parameter has the name of a passed value.
fn tell_no_parameter<W: Sink>(out: &mut Out<'_, W>, params: &[Param], passed: Option<&Passed>) {
    let Some(passed) = passed else {
        return;
    };
    if params.is_empty() {
        out.say(b" has no parameters");
        return;
    }
    out.say(b" has no parameter ");
    tell_name(out, &passed.name);
    let mut list = NameList::new();
    for param in params {
        list.add(out, &param.name);
    }
    list.end(out);
}

// Writes that a name is passed once more.
fn tell_repeated<W: Sink>(out: &mut Out<'_, W>, passed: Option<&Passed>) {
    if let Some(passed) = passed {
        tell_name(out, &passed.name);
        out.say(b" is given twice");
    }
}

// Writes of which kind the parameter of a passed value is.
fn tell_kind<W: Sink>(out: &mut Out<'_, W>, params: &[Param], passed: Option<&Passed>) {
    let Some(passed) = passed else {
        return;
    };
    if let Some(param) = params.iter().find(|param| passed.name == param.name) {
        tell_name(out, &param.name);
        out.say(b" is ");
        out.say(kind_word(param.kind));
    }
}

// Writes that a parameter has no value.
fn tell_missing<W: Sink>(out: &mut Out<'_, W>, param: Option<&Param>) {
    if let Some(param) = param {
        tell_name(out, &param.name);
        out.say(b" (");
        out.say(kind_word(param.kind));
        out.say(b") has no value");
    }
}

/// The word of a kind.
pub(crate) fn kind_word(kind: Kind) -> &'static [u8] {
    match kind {
        Kind::Int => b"int",
        Kind::Str => b"string",
    }
}
