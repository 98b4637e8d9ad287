//! Texts of Graphviz: names, signatures of actions, and what has to be escaped.

use sml_domain::{ActionId, Class, Domain, Param, Value};
use sml_text::Sink;
use sml_tree::{Kind, Name};
use sml_writer::Out;

/// The fill of what belongs to a class of devices.
pub(crate) const DEVICE_FILL: &[u8] = b"\"#dbe4ee\"";

/// A name that a number may have.
pub(crate) fn tell_known<W: Sink>(out: &mut Out<'_, W>, name: Option<Name>) {
    if let Some(name) = name {
        out.say(name.as_bytes());
    }
}

/// Writes bytes inside a string in quotes, so that each is shown as it is. A control character is written as a blank.
pub(crate) fn tell_quoted<W: Sink>(out: &mut Out<'_, W>, bytes: &[u8]) {
    for byte in bytes {
        match *byte {
            b'"' => out.say(b"\\\""),
            b'\\' => out.say(b"\\\\"),
            b'&' => out.say(b"&amp;"),
            b'<' => out.say(b"&lt;"),
            b'>' => out.say(b"&gt;"),
            0..=31 => out.say(b" "),
            other => out.say(&[other]),
        }
    }
}

/// Writes an action of a class with its parameters, if it has some: what is before them where it is the first with
/// some, or the end of a line. Whether there now is such an action.
pub(crate) fn tell_tip<W: Sink>(
    out: &mut Out<'_, W>,
    domain: &Domain,
    class: &Class,
    action: ActionId,
    is_there: bool,
) -> bool {
    let Some(signature) = class.signatures.get(action.get()) else {
        return is_there;
    };
    if signature.params.is_empty() {
        return is_there;
    }
    let before: &[u8] = if is_there { b"\\n" } else { b", tooltip=\"" };
    out.say(before);
    tell_known(out, domain.action_name(action));
    tell_params(out, &signature.params);
    true
}

/// Ends what `tell_tip` wrote, if it wrote something.
pub(crate) fn end_tip<W: Sink>(out: &mut Out<'_, W>, is_there: bool) {
    if is_there {
        out.say(b"\"");
    }
}

// Parameters in brackets.
fn tell_params<W: Sink>(out: &mut Out<'_, W>, params: &[Param]) {
    let mut before: &[u8] = b" (";
    for param in params {
        out.say(before);
        tell_param(out, param);
        before = b", ";
    }
    out.say(b")");
}

// A parameter, with its default where it has one.
fn tell_param<W: Sink>(out: &mut Out<'_, W>, param: &Param) {
    let kind: &[u8] = match param.kind {
        Kind::Int => b"int ",
        Kind::Str => b"string ",
    };
    out.say(kind);
    out.say(param.name.as_bytes());
    if let Some(value) = &param.value {
        out.say(b" = ");
        tell_default(out, value);
    }
}

// A value that is written out.
fn tell_default<W: Sink>(out: &mut Out<'_, W>, value: &Value) {
    match value {
        Value::Int(number) => out.int(*number),
        Value::Text(text) => {
            tell_quoted(out, b"\"");
            tell_quoted(out, text.as_bytes());
            tell_quoted(out, b"\"");
        }
    }
}
