//! One sentence: why a line is not legal, or what could have been in its place.
ghost use Rattle.std.specs.Prelude.{IsTrue, length};
ghost use Rattle.smi_ledger.specs.Tables.{IsKnown};

use crate::bad_request::tell_bad_request;
use crate::earlier::{is_fault_without_device, owner};
use crate::next::Next;
use show_names::{tell_call, tell_number, tell_object, tell_session, tell_set};
use smi_audit::{Past, Rule};
use smi_interp::Post;
use smi_journal::{Entry, Reading, Sender, Verdict};
use sml_domain::{Domain, ObjId, SetId, StateId};
use sml_text::Sink;
use sml_writer::Out;

const NOT_SENT: &[u8] = b"its sender posted no such request under this number";

// What is behind an object.
const SKIPPED: &[u8] = b" does not declare the action, which is skipped";

const NO_STATE: &[u8] = b" has no such state";

const CLEAR: &[u8] = b" reads next is busy";

// What is before the next post of a send.
const UNSPLIT: &[u8] = b"nothing stands between the posts of a send: ";

fn tell_state<W: Sink>(out: &mut Out<'_, W>, domain: &Domain, state: StateId) {
    if let Some(name) = domain.state_name(state) {
        out.say(b" ");
        out.say(name.as_bytes());
    }
}

fn tell_sender<W: Sink>(out: &mut Out<'_, W>, domain: &Domain, sender: &Sender) {
    match sender {
        Sender::Operator(session) => tell_session(out, *session),
        Sender::Object(object) => tell_object(out, domain, *object),
    }
}

// The words of one object.
fn tell_of<W: Sink>(out: &mut Out<'_, W>, domain: &Domain, before: &[u8], o: ObjId, behind: &[u8]) {
    out.say(before);
    tell_object(out, domain, o);
    out.say(behind);
}

fn tell_objects<W: Sink>(out: &mut Out<'_, W>, domain: &Domain, objects: &[ObjId]) {
    if objects.is_empty() {
        out.say(b" no object");
    }
    for object in objects {
        tell_object(out, domain, *object);
    }
}

fn tell_post<W: Sink>(out: &mut Out<'_, W>, domain: &Domain, post: &Post) {
    out.say(b" posts to");
    tell_object(out, domain, post.target);
    tell_call(out, domain, post.target, post.action, post.args.values());
}

// That an object is put into a set, or taken out.
fn tell_change<W: Sink>(
    out: &mut Out<'_, W>,
    domain: &Domain,
    add: bool,
    member: ObjId,
    set: SetId,
) {
    let words: (&[u8], &[u8]) = if add {
        (b" puts", b" into")
    } else {
        (b" takes", b" out of")
    };
    tell_of(out, domain, words.0, member, words.1);
    tell_set(out, domain, set);
}

fn tell_doing<W: Sink>(out: &mut Out<'_, W>, domain: &Domain, o: ObjId, next: &Next) {
    tell_of(out, domain, b"next the action of", o, b"");
    match next {
        Next::Post(post) => tell_post(out, domain, post),
        Next::Nobody(set) => {
            out.say(b" finds no member of");
            tell_set(out, domain, *set);
        }
        Next::Read(objects) => {
            out.say(b" reads");
            tell_objects(out, domain, objects);
        }
        Next::Change { add, member, set } => {
            tell_change(out, domain, *add, *member, *set);
        }
        Next::End(state) => {
            out.say(b" ends in");
            tell_state(out, domain, *state);
        }
    }
}

// What the open action of an object does next.
fn tell_next<W: Sink>(out: &mut Out<'_, W>, past: &Past, o: ObjId, next: &Option<Next>) {
    let domain = past.books().domain();
    if !domain.has(o) {
        return;
    }
    let Some(next) = next else {
        tell_skip(out, past, o);
        return;
    };
    if domain.associated(o) {
        tell_of(out, domain, b"next the device of", o, b" ends the action");
    } else {
        tell_doing(out, domain, o, next);
    }
}

// Whose posts an entry splits, and which is the next of them.
fn tell_split<W: Sink>(out: &mut Out<'_, W>, past: &Past, next: &Option<Next>) {
    out.say(UNSPLIT);
    if let Some(o) = past.books().last() {
        tell_next(out, past, o, next);
    }
}

// The state of an object, which does not declare what is open there.
fn tell_skip<W: Sink>(out: &mut Out<'_, W>, past: &Past, o: ObjId) {
    let domain = past.books().domain();
    if domain.has(o) {
        out.say(b"the state");
        tell_state(out, domain, past.books().state(o));
        tell_of(out, domain, b" of", o, SKIPPED);
    }
}

// Writes why nothing ends, continues or fails at an object.
fn tell_not_open<W: Sink>(out: &mut Out<'_, W>, domain: &Domain, entry: &Entry) {
    let o = owner(entry);
    if is_fault_without_device(domain, entry) {
        tell_of(out, domain, b"the object", o, b" has no device");
    } else {
        tell_of(out, domain, b"no action is open at", o, b"");
    }
}

// The number that would be right.
fn tell_right_number<W: Sink>(out: &mut Out<'_, W>, past: &Past, entry: &Entry) {
    let books = past.books();
    let domain = books.domain();
    match entry {
        Entry::Start { object, sender, .. } => {
            if !domain.has(*object) || !is_known(domain, sender) {
                return;
            }
            out.say(b"the next start of");
            tell_sender(out, domain, sender);
            tell_of(out, domain, b" at", *object, b" has the number");
            tell_number(out, books.started(sender, *object) as u64);
        }
        Entry::Post { sender, target, .. } => {
            if !domain.has(*sender) || !domain.has(*target) {
                return;
            }
            tell_of(out, domain, b"the next accepted post of", *sender, b" to");
            tell_of(out, domain, b"", *target, b" has the number");
            tell_number(out, books.posted(*sender, *target) as u64);
        }
        _ => {}
    }
}

// Whether a sender is one of the domain.
fn is_known(domain: &Domain, sender: &Sender) -> bool
    ensures { IsTrue result → IsKnown (length domain.now.objects) sender.now }
{
    match sender {
        Sender::Operator(_) => true,
        Sender::Object(object) => domain.has(*object),
    }
}

// Writes that an object is killed though a post says that it is not, or the other way round.
fn tell_dead<W: Sink>(out: &mut Out<'_, W>, domain: &Domain, entry: &Entry) {
    if let Entry::Post {
        target,
        verdict,
        ..
    } = entry
    {
        let behind: &[u8] = match verdict {
            Verdict::Dead => b" is not killed",
            Verdict::Accepted(_) | Verdict::Full => b" is killed",
        };
        tell_of(out, domain, b"the object", *target, behind);
    }
}

/// The object of the first reading that another object has to wait for.
pub(crate) fn first_busy(past: &Past, o: ObjId, readings: &[Reading]) -> Option<ObjId> {
    let books = past.books();
    if !books.domain().has(o) {
        return None;
    }
    for reading in readings {
        if books.domain().has(reading.object) && !books.is_clear(o, reading.object) {
            return Some(reading.object);
        }
    }
    None
}

fn tell_busy<W: Sink>(out: &mut Out<'_, W>, past: &Past, o: ObjId, readings: &[Reading]) {
    let books = past.books();
    let domain = books.domain();
    let Some(busy) = first_busy(past, o, readings) else {
        return;
    };
    if domain.has(busy) && books.is_open(busy) {
        tell_of(out, domain, b"an action is open at", busy, b"");
        return;
    }
    tell_of(out, domain, b"what", o, b" sent to");
    tell_of(out, domain, b"", busy, b" has not ended");
}

/// The object of the first reading whose state is another.
pub(crate) fn first_misread(past: &Past, readings: &[Reading]) -> Option<ObjId> {
    let books = past.books();
    for reading in readings {
        if books.domain().has(reading.object)
            && books.state(reading.object).get() != reading.state.get()
        {
            return Some(reading.object);
        }
    }
    None
}

fn tell_misread<W: Sink>(out: &mut Out<'_, W>, past: &Past, readings: &[Reading]) {
    let books = past.books();
    let domain = books.domain();
    if let Some(object) = first_misread(past, readings) {
        if domain.has(object) {
            tell_of(out, domain, b"the state of", object, b" is");
            tell_state(out, domain, books.state(object));
        }
    }
}

// What is said where objects were read.
fn tell_readings<W: Sink>(out: &mut Out<'_, W>, past: &Past, entry: &Entry, is_busy: bool) {
    if let Entry::Seen { object, readings } = entry {
        if is_busy {
            tell_busy(out, past, *object, readings.list());
        } else {
            tell_misread(out, past, readings.list());
        }
    }
}

/// Writes why an entry is not legal that breaks a rule first, behind the entries of a past; with what the action does
/// next that continues in its place.
pub(crate) fn tell_sentence<W: Sink>(
    out: &mut Out<'_, W>,
    past: &Past,
    entry: &Entry,
    rule: Rule,
    next: &Option<Next>,
) {
    let domain = past.books().domain();
    let o = owner(entry);
    match rule {
        Rule::Split => tell_split(out, past, next),
        Rule::Killed => tell_of(out, domain, b"the object", o, b" is killed"),
        Rule::Open => tell_of(out, domain, b"an action is open at", o, b""),
        Rule::Number => tell_right_number(out, past, entry),
        Rule::NotSent => out.say(NOT_SENT),
        Rule::BadRequest => tell_bad_request(out, domain, entry),
        Rule::NotOpen => tell_not_open(out, domain, entry),
        Rule::Meaning => tell_next(out, past, o, next),
        Rule::Dead => tell_dead(out, domain, entry),
        Rule::Clear => tell_of(out, domain, b"none of the objects that", o, CLEAR),
        Rule::Busy => tell_readings(out, past, entry, true),
        Rule::Reading => tell_readings(out, past, entry, false),
        Rule::NotAState => tell_of(out, domain, b"the class of", o, NO_STATE),
    }
}
