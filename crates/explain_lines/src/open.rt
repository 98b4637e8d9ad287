//! What is open at an object, what waits there, and since when it is killed.

use crate::declared::{tell_action, tell_object};
use crate::history::{Kill, Last, Past, Stage};
use crate::words::tell_count;
use show_names::tell_session;
use smi_journal::Cause;
use sml_domain::{Domain, ObjId};
use sml_text::Sink;
use sml_writer::Out;

// Writes the number of a line.
fn tell_line<W: Sink>(out: &mut Out<'_, W>, line: usize) {
    out.say(b"line ");
    out.number(line as u64);
}

// Writes which line killed an object, and the entry of the kill.
fn tell_by<W: Sink>(out: &mut Out<'_, W>, domain: &Domain, o: ObjId, kill: &Kill) {
    out.say(b" was killed by ");
    tell_line(out, kill.line);
    out.say(b" of the schedule (`kill ");
    tell_object(out, domain, o);
    match kill.cause {
        Cause::By(session) => tell_session(out, session),
        Cause::Fault => out.say(b" fault"),
    }
    out.say(b"`)");
}

/// Writes since when an object is killed.
pub(crate) fn tell_killed<W: Sink>(out: &mut Out<'_, W>, domain: &Domain, o: ObjId, past: &Past) {
    tell_object(out, domain, o);
    match &past.killed {
        Some(kill) => tell_by(out, domain, o, kill),
        None => out.say(b" is killed"),
    }
}

/// Writes how many requests wait at an object whose mailbox is full.
pub(crate) fn tell_full<W: Sink>(out: &mut Out<'_, W>, domain: &Domain, o: ObjId, past: &Past) {
    tell_waiting(out, past);
    out.say(b" at ");
    tell_object(out, domain, o);
    out.say(b", and its mailbox has room for ");
    out.number(past.waiting() as u64);
    out.say(b": ");
    tell_advice(out, domain, o, b"start ", b"");
    out.say(b" takes one");
}

// Writes how many requests wait.
fn tell_waiting<W: Sink>(out: &mut Out<'_, W>, past: &Past) {
    tell_count(out, past.waiting(), b"request");
    out.say(if past.waiting() == 1 {
        b" waits".as_slice()
    } else {
        b" wait".as_slice()
    });
}

// Writes a line for an object, in marks.
fn tell_advice<W: Sink>(
    out: &mut Out<'_, W>,
    domain: &Domain,
    o: ObjId,
    before: &[u8],
    behind: &[u8],
) {
    out.say(b"`");
    out.say(before);
    tell_object(out, domain, o);
    out.say(behind);
    out.say(b"`");
}

/// Writes what is open at an object, and which line continues it.
pub(crate) fn tell_already_open<W: Sink>(
    out: &mut Out<'_, W>,
    domain: &Domain,
    o: ObjId,
    past: &Past,
) {
    match &past.last {
        Some(last) => tell_action(out, domain, last.action),
        None => out.say(b"an action"),
    }
    out.say(b" is open at ");
    tell_object(out, domain, o);
    if let Some(last) = &past.last {
        out.say(b" since ");
        tell_line(out, last.line);
    }
    out.say(b": ");
    if domain.associated(o) {
        tell_advice(out, domain, o, b"answer ", b" STATE");
        out.say(b" ends it");
    } else {
        tell_advice(out, domain, o, b"go ", b"");
        out.say(b" makes its next move");
    }
}

/// Writes why no request waits at an object.
pub(crate) fn tell_empty<W: Sink>(out: &mut Out<'_, W>, domain: &Domain, o: ObjId, past: &Past) {
    out.say(b"no request waits at ");
    tell_object(out, domain, o);
    match past.accepted {
        0 => out.say(b": none was accepted yet"),
        1 => out.say(b": the one that was accepted was started"),
        _ => {
            out.say(b": all ");
            out.number(past.accepted as u64);
            out.say(b" that were accepted were started");
        }
    }
}

/// Writes why no action is open at an object.
pub(crate) fn tell_not_open<W: Sink>(out: &mut Out<'_, W>, domain: &Domain, o: ObjId, past: &Past) {
    out.say(b"no action is open at ");
    tell_object(out, domain, o);
    if let Some(kill) = &past.killed {
        out.say(b": it");
        tell_by(out, domain, o, kill);
    } else if past.waiting() > 0 {
        out.say(b"; ");
        tell_waiting(out, past);
        out.say(b": ");
        tell_advice(out, domain, o, b"start ", b"");
        out.say(b" first");
    } else {
        tell_last(out, domain, past);
        out.say(b", and no request waits");
    }
}

// Writes what became of the last action.
fn tell_last<W: Sink>(out: &mut Out<'_, W>, domain: &Domain, past: &Past) {
    out.say(b": ");
    match &past.last {
        None => out.say(b"none was started yet"),
        Some(last) => tell_stage(out, domain, last),
    }
}

// Writes which line brought an action to its stage.
fn tell_stage<W: Sink>(out: &mut Out<'_, W>, domain: &Domain, last: &Last) {
    tell_action(out, domain, last.action);
    let words: &[u8] = match last.stage {
        Stage::Open => b" was started by ",
        Stage::Ended => b" ended by ",
        Stage::Skipped => b" was skipped by ",
    };
    out.say(words);
    tell_line(out, last.line);
}
