//! What is said of a warning.

use crate::kind::WarningKind;
use crate::lines::Lines;
use crate::warning::{Detail, Warning};
use explain_places::{tell_place, tell_quoted, tell_spot};
use sml_domain::{ActionId, ClassId, Domain, ObjId};
use sml_text::Sink;
use sml_writer::Out;

// How many members of a circle are named.
const NAMED: usize = 8;

/// Writes what is wrong: the place, a sentence, the line and a caret. The cost is that of the line.
pub fn explain_warning<W: Sink>(
    out: &mut Out<'_, W>,
    domain: &Domain,
    source: (&str, &[u8], &Lines),
    warning: &Warning,
) {
    let (file, text, lines) = source;
    tell_place(out, file, lines.place(warning.at));
    tell_sentence(out, domain, lines, warning);
    out.say(b"\n");
    tell_quoted(out, text, warning.at);
}

// Writes several words.
fn say<W: Sink>(out: &mut Out<'_, W>, words: &[&[u8]]) {
    for word in words {
        out.say(*word);
    }
}

// Writes the sentence.
fn tell_sentence<W: Sink>(out: &mut Out<'_, W>, domain: &Domain, lines: &Lines, warning: &Warning) {
    let name = warning.name.as_bytes();
    match &warning.detail {
        Detail::EndedAt(at) => {
            say(
                out,
                &[b"this is never reached: the action has ended before it, at "],
            );
            tell_spot(out, lines.place(*at));
        }
        Detail::OfClass(class) => tell_of_class(out, warning.kind, name, class.as_bytes()),
        Detail::OfAction(action) => say(
            out,
            &[
                b"nothing reads parameter ",
                name,
                b" of action ",
                action.as_bytes(),
            ],
        ),
        Detail::OneTest => tell_test(out, warning.kind, name),
        Detail::WithOthers => tell_tests(out, warning.kind, name),
        Detail::EmptySet => say(
            out,
            &[
                b"set ",
                name,
                b" never has a member: nothing is sent to it, and `all_in` of it is always true",
            ],
        ),
        Detail::Class => tell_class(out, warning.kind, name),
        Detail::Set => say(out, &[b"nothing names set ", name]),
        Detail::Object => say(
            out,
            &[
                b"no object sends to ",
                name,
                b", asks it, or puts it into a set that is used",
            ],
        ),
        Detail::EndsDead(class) => say(
            out,
            &[
                b"this does not kill: an object of class ",
                class.as_bytes(),
                b" in its dead state ",
                name,
                b" goes on",
            ],
        ),
        Detail::NotDead(dead) => say(
            out,
            &[
                b"an object that is killed is not in state ",
                name,
                b": the dead state of its class is ",
                dead.as_bytes(),
            ],
        ),
        Detail::Actions(members) => tell_actions(out, domain, members),
        Detail::Objects(members) => tell_objects(out, domain, members),
    }
}

// Writes what is wrong with something of a class.
fn tell_of_class<W: Sink>(out: &mut Out<'_, W>, kind: WarningKind, name: &[u8], class: &[u8]) {
    match kind {
        WarningKind::NoWayIn => say(
            out,
            &[
                b"no object of class ",
                class,
                b" is ever in state ",
                name,
                b": no action that it can start ends there",
            ],
        ),
        WarningKind::NoWayOut => say(
            out,
            &[
                b"state ",
                name,
                b" of class ",
                class,
                b" has no action: an object that is in it stays there",
            ],
        ),
        WarningKind::NeverRead => say(
            out,
            &[b"nothing reads parameter ", name, b" of class ", class],
        ),
        _ => say(
            out,
            &[
                b"no object sends ",
                name,
                b" to one of class ",
                class,
                b": operators alone can ask for it",
            ],
        ),
    }
}

// Writes what is wrong with a class.
fn tell_class<W: Sink>(out: &mut Out<'_, W>, kind: WarningKind, name: &[u8]) {
    match kind {
        WarningKind::NoBody => say(
            out,
            &[
                b"no action of class ",
                name,
                b" has an instruction: is `/associated` missing?",
            ],
        ),
        _ => say(out, &[b"class ", name, b" has no object"]),
    }
}

// Writes what is wrong with a test.
fn tell_test<W: Sink>(out: &mut Out<'_, W>, kind: WarningKind, name: &[u8]) {
    match kind {
        WarningKind::Always => say(
            out,
            &[
                b"this is always true, in each state that ",
                name,
                b" can be in",
            ],
        ),
        _ => say(
            out,
            &[
                b"this is never true, in no state that ",
                name,
                b" can be in",
            ],
        ),
    }
}

// Writes what is wrong with several tests.
fn tell_tests<W: Sink>(out: &mut Out<'_, W>, kind: WarningKind, name: &[u8]) {
    match kind {
        WarningKind::Always => say(
            out,
            &[
                b"with the tests of ",
                name,
                b" before it this is always true: together they have each state",
            ],
        ),
        _ => say(
            out,
            &[
                b"with the tests of ",
                name,
                b" before it this is never true: they have no state in common",
            ],
        ),
    }
}

// Writes how many members of a circle are not named.
fn tell_others<W: Sink>(out: &mut Out<'_, W>, count: usize) {
    if count > NAMED {
        out.say(b" and ");
        out.number(count.saturating_sub(NAMED) as u64);
        out.say(b" more");
    }
}

// Writes the actions of a circle.
fn tell_actions<W: Sink>(out: &mut Out<'_, W>, domain: &Domain, members: &[(ClassId, ActionId)]) {
    say(
        out,
        &[b"these actions send to one another in a circle, and may go on for ever: "],
    );
    for (place, (class, action)) in members.iter().take(NAMED).enumerate() {
        if let (Some(row), Some(name)) = (
            domain.classes().get(class.get()),
            domain.action_name(*action),
        ) {
            if place > 0 {
                out.say(b", ");
            }
            say(out, &[name.as_bytes(), b" of ", row.name.as_bytes()]);
        }
    }
    tell_others(out, members.len());
}

// Writes the objects of a circle.
fn tell_objects<W: Sink>(out: &mut Out<'_, W>, domain: &Domain, members: &[ObjId]) {
    say(
        out,
        &[b"these objects ask one another in a circle, and may wait for one another for ever: "],
    );
    for (place, o) in members.iter().take(NAMED).enumerate() {
        if let Some(name) = domain.object_name(*o) {
            if place > 0 {
                out.say(b", ");
            }
            out.say(name.as_bytes());
        }
    }
    tell_others(out, members.len());
}
