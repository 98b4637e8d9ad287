//! Why a step of a schedule was refused.

use crate::arguments::{BadArgument, bad_argument, tell_bad_argument};
use crate::declared::{
    class_at, tell_no_object, tell_not_a_state, tell_object, tell_swapped, tell_undeclared,
};
use crate::history::{History, Past};
use crate::open::{tell_already_open, tell_empty, tell_full, tell_killed, tell_not_open};
use crate::pieces::token_at;
use crate::source_line::{SourceLine, tell_back, tell_front};
use crate::words::tell_count;
use smi_journal::Passed;
use smi_world::{Step, StepError};
use sml_domain::{Domain, ObjId};
use sml_text::Sink;
use sml_tree::Name;
use sml_writer::Out;

/// Writes why the step of a line was refused: the place in the line that the cause is about, one sentence, the line,
/// and a caret. The history is that of the lines before, as [`History::note`] notes them; a refused step changes
/// nothing.
///
/// It is text for people, and no part of a format. The cost is the length of the line, and where a name is unknown the
/// count of the names that it may have meant. No memory is taken.
pub fn explain_refused<W: Sink>(
    history: &History,
    domain: &Domain,
    line: &SourceLine,
    step: &Step,
    error: StepError,
    out: &mut Out<'_, W>,
) {
    let at = match token_at(line.text, tokens_before(domain, step, error)) {
        Some(token) => token.at,
        None => 0,
    };
    tell_front(out, line, at);
    match domain.object(object_in(step)) {
        Some(o) => tell_at(out, history, domain, o, step, error),
        None if tell_swapped(out, domain, step) => {}
        None => tell_no_object(out, domain, object_in(step)),
    }
    tell_back(out, line, at);
}

// The name of the object of a step.
fn object_in(step: &Step) -> &Name {
    match step {
        Step::Request { object, .. } => object,
        Step::Start(object) | Step::Go(object) | Step::Fault(object) => object,
        Step::Answer { object, .. } => object,
        Step::Kill { object, .. } => object,
    }
}

// How many tokens are in the line before the one that a refusal is about.
fn tokens_before(domain: &Domain, step: &Step, error: StepError) -> usize {
    match (step, error) {
        (Step::Request { .. }, StepError::UnknownAction) => 3,
        (Step::Request { .. }, StepError::BadArgs) => match bad_in(domain, step) {
            Some(bad) => tokens_before_argument(bad),
            None => 3,
        },
        (Step::Request { .. }, _) => 2,
        (Step::Answer { .. }, StepError::NotAState) => 2,
        _ => 1,
    }
}

// How many tokens are before an argument that is bad: four for each argument, and those of the request.
fn tokens_before_argument(bad: BadArgument) -> usize {
    match bad {
        BadArgument::Unknown(place) | BadArgument::Repeated(place) => {
            place.saturating_mul(4).saturating_add(5)
        }
        BadArgument::WrongKind(place) => place.saturating_mul(4).saturating_add(7),
        BadArgument::Missing(_) => 3,
    }
}

// What is wrong with the arguments of a request.
fn bad_in(domain: &Domain, step: &Step) -> Option<BadArgument> {
    let Step::Request {
        object,
        action,
        args,
        ..
    } = step
    else {
        return None;
    };
    let o = domain.object(object)?;
    let a = domain.action(action)?;
    bad_argument(domain.parameters(o, a)?, args.list())
}

// Writes why a step at an object was refused.
fn tell_at<W: Sink>(
    out: &mut Out<'_, W>,
    history: &History,
    domain: &Domain,
    o: ObjId,
    step: &Step,
    error: StepError,
) {
    let past = history.past(o);
    match error {
        StepError::UnknownObject | StepError::UnknownAction | StepError::BadArgs => {
            tell_request(out, domain, o, step);
        }
        StepError::NotAState => tell_answer(out, domain, o, step),
        StepError::Associated | StepError::NotAssociated => {
            tell_device(out, domain, o, step);
        }
        StepError::Limit => tell_limit(out, history),
        StepError::Memory => out.say(b"out of memory"),
        StepError::Dead
        | StepError::AlreadyDead(_)
        | StepError::Full
        | StepError::AlreadyOpen
        | StepError::Empty
        | StepError::NotOpen => tell_past(out, domain, o, &past, error),
    }
}

// Writes what was done at an object, for which a step was refused.
fn tell_past<W: Sink>(
    out: &mut Out<'_, W>,
    domain: &Domain,
    o: ObjId,
    past: &Past,
    error: StepError,
) {
    match error {
        StepError::Full => tell_full(out, domain, o, past),
        StepError::AlreadyOpen => tell_already_open(out, domain, o, past),
        StepError::Empty => tell_empty(out, domain, o, past),
        StepError::NotOpen => tell_not_open(out, domain, o, past),
        _ => tell_killed(out, domain, o, past),
    }
}

// Writes what is wrong with the action or the arguments of a request.
fn tell_request<W: Sink>(out: &mut Out<'_, W>, domain: &Domain, o: ObjId, step: &Step) {
    let Step::Request { action, args, .. } = step else {
        return;
    };
    match domain.action(action) {
        Some(a) if domain.parameters(o, a).is_some() => {
            tell_arguments(out, domain, o, step, args.list());
        }
        _ => tell_undeclared(out, domain, o, action),
    }
}

// Writes what is wrong with the arguments of a request.
fn tell_arguments<W: Sink>(
    out: &mut Out<'_, W>,
    domain: &Domain,
    o: ObjId,
    step: &Step,
    passed: &[Passed],
) {
    let Step::Request { action, .. } = step else {
        return;
    };
    let Some(a) = domain.action(action) else {
        return;
    };
    if let Some(bad) = bad_in(domain, step) {
        tell_bad_argument(out, domain, o, a, passed, bad);
    }
}

// Writes which states there are, in place of the one that was answered.
fn tell_answer<W: Sink>(out: &mut Out<'_, W>, domain: &Domain, o: ObjId, step: &Step) {
    if let Step::Answer { state, .. } = step {
        tell_not_a_state(out, domain, o, state);
    }
}

// Writes whether an object has a device, and which line is due in place of the refused one.
fn tell_device<W: Sink>(out: &mut Out<'_, W>, domain: &Domain, o: ObjId, step: &Step) {
    tell_object(out, domain, o);
    let (words, behind): (&[u8], &[u8]) = match step {
        Step::Go(_) => (b" has a device: `answer ", b" STATE`"),
        Step::Fault(_) => (b" has no device: `kill ", b" @1`"),
        _ => (b" has no device: `go ", b"`"),
    };
    out.say(words);
    tell_object(out, domain, o);
    out.say(behind);
}

// Writes how many actions were started.
fn tell_limit<W: Sink>(out: &mut Out<'_, W>, history: &History) {
    tell_count(out, history.starts(), b"action");
    let words: &[u8] = if history.starts() == 1 {
        b" was started, as many as may be (`--max-starts`)"
    } else {
        b" were started, as many as may be (`--max-starts`)"
    };
    out.say(words);
}
