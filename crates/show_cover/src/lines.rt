//! The lines of what was exercised and what was not.

use crate::coverage::{StateCounts, Tally};
use explain_places::{Position, tell_spot};
use sml_domain::{ActionId, Class, Domain, StateId};
use sml_text::Sink;
use sml_tree::Name;
use sml_writer::Out;

/// What a line is of: a state of a class, or an action of that.
#[derive(Clone, Copy)]
pub(crate) struct Thing<'a> {
    pub domain: &'a Domain,
    pub class: &'a Class,
    pub state: StateId,
    pub action: Option<ActionId>,
}

// A name with a blank before it, where it is known.
fn tell_known<W: Sink>(out: &mut Out<'_, W>, name: Option<Name>) {
    if let Some(name) = name {
        out.say(b" ");
        out.say(name.as_bytes());
    }
}

// A word and what it is said of.
fn tell_thing<W: Sink>(out: &mut Out<'_, W>, word: &[u8], thing: &Thing<'_>) {
    let class = thing.class;
    out.say(word);
    tell_known(out, Some(class.name));
    tell_known(out, thing.domain.state_name(thing.state));
    if let Some(action) = thing.action {
        tell_known(out, thing.domain.action_name(action));
    }
}

// A count behind a word.
fn tell_count<W: Sink>(out: &mut Out<'_, W>, word: &[u8], count: u64) {
    out.say(word);
    out.say(b" ");
    out.number(count);
}

// A word, the action that has an instruction, and where that stands.
fn tell_instruction<W: Sink>(
    out: &mut Out<'_, W>,
    word: &[u8],
    thing: &Thing<'_>,
    place: Position,
) {
    tell_thing(out, word, thing);
    out.say(b" at ");
    tell_spot(out, place);
}

// The line of what never was.
pub(crate) fn tell_never<W: Sink>(out: &mut Out<'_, W>, word: &[u8], thing: &Thing<'_>) {
    tell_thing(out, word, thing);
    out.say(b"\n");
}

// The line of what never was with an instruction.
pub(crate) fn tell_never_at<W: Sink>(
    out: &mut Out<'_, W>,
    word: &[u8],
    thing: &Thing<'_>,
    place: Position,
) {
    tell_instruction(out, word, thing, place);
    out.say(b"\n");
}

// How often a state was entered, and how often a request was skipped in it, where one was.
pub(crate) fn tell_state<W: Sink>(out: &mut Out<'_, W>, thing: &Thing<'_>, counts: &StateCounts) {
    tell_thing(out, b"entered", thing);
    tell_count(out, b"", counts.entered);
    out.say(b"\n");
    if counts.skipped > 0 {
        tell_thing(out, b"skipped", thing);
        tell_count(out, b"", counts.skipped);
        out.say(b"\n");
    }
}

// How often an action was started.
pub(crate) fn tell_started<W: Sink>(out: &mut Out<'_, W>, thing: &Thing<'_>, count: u64) {
    tell_thing(out, b"started", thing);
    tell_count(out, b"", count);
    out.say(b"\n");
}

// How often an `if` was true and false.
pub(crate) fn tell_if<W: Sink>(
    out: &mut Out<'_, W>,
    thing: &Thing<'_>,
    place: Position,
    tally: &Tally,
) {
    tell_instruction(out, b"if", thing, place);
    tell_count(out, b" true", tally.yes);
    tell_count(out, b" false", tally.no);
    out.say(b"\n");
}

// How many requests a `do` has sent, and what became of them.
pub(crate) fn tell_send<W: Sink>(
    out: &mut Out<'_, W>,
    thing: &Thing<'_>,
    place: Position,
    tally: &Tally,
) {
    tell_instruction(out, b"send", thing, place);
    tell_count(out, b" sent", tally.sent);
    tell_count(out, b" full", tally.full);
    tell_count(out, b" dead", tally.dead);
    tell_count(out, b" empty", tally.empty);
    out.say(b"\n");
}

// How often a `wait` has read its objects.
pub(crate) fn tell_wait<W: Sink>(
    out: &mut Out<'_, W>,
    thing: &Thing<'_>,
    place: Position,
    tally: &Tally,
) {
    tell_instruction(out, b"wait", thing, place);
    tell_count(out, b" seen", tally.seen);
    out.say(b"\n");
}
