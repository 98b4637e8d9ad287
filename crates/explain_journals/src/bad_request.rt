//! Why no session can have asked for what a start says.

use show_names::tell_object;
use smi_journal::Entry;
use sml_domain::{ActionId, Domain, ObjId, Param, Value};
use sml_text::Sink;
use sml_writer::Out;

/// Writes which argument of a start is not an argument of its action, or that no state declares the action.
pub(crate) fn tell_bad_request<W: Sink>(out: &mut Out<'_, W>, domain: &Domain, entry: &Entry) {
    if let Entry::Start {
        object,
        action,
        args,
        ..
    } = entry
    {
        match domain.parameters(*object, *action) {
            Some(params) => {
                tell_argument(out, params, args.values());
                tell_action(out, domain, *action);
                out.say(b" at");
                tell_object(out, domain, *object);
                tell_wanted(out, params, args.values());
            }
            None => tell_undeclared(out, domain, *object, *action),
        }
    }
}

// The name of an action.
fn tell_action<W: Sink>(out: &mut Out<'_, W>, domain: &Domain, action: ActionId) {
    if let Some(name) = domain.action_name(action) {
        out.say(name.as_bytes());
    }
}

// That no state of an object's class declares an action.
fn tell_undeclared<W: Sink>(out: &mut Out<'_, W>, domain: &Domain, o: ObjId, action: ActionId) {
    out.say(b"no state of the class of");
    tell_object(out, domain, o);
    out.say(b" declares ");
    tell_action(out, domain, action);
}

// The place of the first parameter whose value is of another kind or is missing.
fn first_bad(params: &[Param], values: &[Value]) -> Option<usize> {
    for (place, param) in params.iter().enumerate() {
        match values.get(place) {
            Some(value) if value.kind() == param.kind => {}
            _ => return Some(place),
        }
    }
    None
}

// The name of the parameter that the sentence is about, or nothing if there are too many values.
fn tell_argument<W: Sink>(out: &mut Out<'_, W>, params: &[Param], values: &[Value]) {
    let Some(place) = first_bad(params, values) else {
        return;
    };
    if let Some(param) = params.get(place) {
        out.say(param.name.as_bytes());
        out.say(b" of ");
    }
}

// What the parameter has to have, or how many values there may be.
fn tell_wanted<W: Sink>(out: &mut Out<'_, W>, params: &[Param], values: &[Value]) {
    let Some(place) = first_bad(params, values) else {
        out.say(b" has no more arguments than ");
        out.number(params.len() as u64);
        return;
    };
    let words: &[u8] = match values.get(place) {
        Some(Value::Int(_)) => b" is string",
        Some(Value::Text(_)) => b" is int",
        None => b" has no value",
    };
    out.say(words);
}
