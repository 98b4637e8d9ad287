//! Sentences of parameters and arguments.

use crate::directory::action_param;
use crate::finding::{Detail, Finding, Role};
use crate::subject::{Subject, tell_called, tell_class_name, tell_comma, tell_nearest, tell_of};
use crate::teller::Teller;
use crate::tokens::{Tokens, name_of};
use explain_places::Nearest;
use sml_text::Sink;
use sml_tree::{Action, Class, Kind, Name};
use std::alloc::Global;

/// A name that is no parameter's.
pub(crate) fn tell_param<W: Sink>(
    out: &mut Teller<'_, '_, W>,
    subject: Subject<'_>,
    finding: &Finding,
) {
    match finding.detail {
        Detail::Called { class, call, .. } => {
            tell_called(out, call);
            out.say(b" of ");
            tell_class_name(out, subject, class);
            tell_of(out, b" has no parameter ", &finding.name, b"");
            if let Some(action) = called_at(out, subject, class, call) {
                tell_params(out, action, &finding.name);
            }
        }
        Detail::Set {
            class,
            state,
            action,
        } => tell_set_param(
            out,
            subject,
            finding,
            class,
            own_action(subject, class, state, action),
        ),
        Detail::Own {
            class,
            state,
            action,
        } => tell_own(
            out,
            subject,
            finding,
            class,
            own_action(subject, class, state, action),
        ),
        _ => {}
    }
}

// The action of a class that the name at a place of the text calls.
fn called_at<'s, W: Sink>(
    out: &Teller<'_, '_, W>,
    subject: Subject<'s>,
    class: usize,
    call: usize,
) -> Option<&'s Action<Global>> {
    let rest = out.text.split_at(call.min(out.text.len())).1;
    let piece = Tokens::new(rest).take()?;
    let name = name_of(piece.bytes(rest))?;
    subject.directory.action_in(class, &name)
}

// The action at a place of a class.
fn own_action<'s>(
    subject: Subject<'s>,
    class: usize,
    state: usize,
    action: usize,
) -> Option<&'s Action<Global>> {
    subject
        .directory
        .class_at(class)?
        .states
        .get(state)?
        .actions
        .get(action)
}

// The parameters of an action, and the one of them that may have been meant.
fn tell_params<W: Sink>(out: &mut Teller<'_, '_, W>, action: &Action<Global>, name: &Name) {
    let mut nearest = Nearest::new(name);
    if action.params.is_empty() {
        return out.say(b", and no other");
    }
    out.say(b" (");
    for (i, param) in action.params.iter().enumerate() {
        tell_comma(out, i);
        out.name(&param.name);
        nearest.offer(&param.name);
    }
    out.say(b")");
    tell_nearest(out, &nearest);
}

// The parameters of a class, and the one of them that may have been meant.
fn tell_class_params<W: Sink>(out: &mut Teller<'_, '_, W>, class: &Class<Global>, name: &Name) {
    let mut nearest = Nearest::new(name);
    if class.params.is_empty() {
        return out.say(b", and no other: `set` changes parameters of the class");
    }
    out.say(b" (");
    for (i, param) in class.params.iter().enumerate() {
        tell_comma(out, i);
        out.name(&param.name);
        nearest.offer(&param.name);
    }
    out.say(b")");
    tell_nearest(out, &nearest);
}

// A `set` of a name that is no parameter's of the class, but may be one of the action.
fn tell_set_param<W: Sink>(
    out: &mut Teller<'_, '_, W>,
    subject: Subject<'_>,
    finding: &Finding,
    class: usize,
    action: Option<&Action<Global>>,
) {
    let name = &finding.name;
    match action {
        Some(action) if action_param(action, name).is_some() => {
            out.name(name);
            tell_of(
                out,
                b" is a parameter of action ",
                &action.name,
                b"; `set` sets those of ",
            );
            tell_class_name(out, subject, class);
        }
        _ => {
            tell_class_name(out, subject, class);
            tell_of(out, b" has no parameter ", name, b"");
        }
    }
    if let Some(class) = subject.directory.class_at(class) {
        tell_class_params(out, class, name);
    }
}

// A value that names no parameter of an action or its class.
fn tell_own<W: Sink>(
    out: &mut Teller<'_, '_, W>,
    subject: Subject<'_>,
    finding: &Finding,
    class: usize,
    action: Option<&Action<Global>>,
) {
    let mut nearest = Nearest::new(&finding.name);
    if let Some(action) = action {
        tell_of(out, b"neither action ", &action.name, b" nor ");
        for param in &action.params {
            nearest.offer(&param.name);
        }
    }
    tell_class_name(out, subject, class);
    tell_of(out, b" has a parameter ", &finding.name, b"");
    if let Some(class) = subject.directory.class_at(class) {
        for param in &class.params {
            nearest.offer(&param.name);
        }
    }
    tell_nearest(out, &nearest);
}

// A kind, in words.
fn kind_words(kind: Kind) -> &'static [u8] {
    match kind {
        Kind::Int => b"int",
        Kind::Str => b"string",
    }
}

// The other kind.
fn other_kind(kind: Kind) -> Kind {
    match kind {
        Kind::Int => Kind::Str,
        Kind::Str => Kind::Int,
    }
}

/// A value of another kind than its parameter.
pub(crate) fn tell_kinds<W: Sink>(out: &mut Teller<'_, '_, W>, finding: &Finding) {
    let Detail::Kinds {
        wanted,
        role,
        value,
    } = finding.detail
    else {
        return;
    };
    out.name(&finding.name);
    if let Role::Passed(call) = role {
        out.say(b" of ");
        tell_called(out, call);
    }
    out.say(b" is ");
    out.say(kind_words(wanted));
    out.say(b", and ");
    match value {
        Some(at) => tell_called(out, at),
        None => out.say(match role {
            Role::Default => b"its default",
            Role::Assigned => b"the value that it is set to",
            Role::Passed(_) => b"the value that is passed",
        }),
    }
    out.say(b" is ");
    out.say(kind_words(other_kind(wanted)));
}

/// A parameter that gets no value.
pub(crate) fn tell_missing<W: Sink>(
    out: &mut Teller<'_, '_, W>,
    subject: Subject<'_>,
    finding: &Finding,
) {
    let Detail::Called { class, call, .. } = finding.detail else {
        return;
    };
    tell_called(out, call);
    out.say(b" of ");
    tell_class_name(out, subject, class);
    tell_of(out, b" needs ", &finding.name, b", which has no default");
}
