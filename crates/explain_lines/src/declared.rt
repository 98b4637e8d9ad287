//! What a domain declares, and what it does not: the names that may have been meant.

use crate::words::{NameList, tell_meant, tell_name};
use explain_places::Nearest;
use show_names::tell_session;
use smi_world::Step;
use sml_domain::{ActionId, Class, Domain, ObjId, StateId};
use sml_text::Sink;
use sml_tree::Name;
use sml_writer::Out;

/// The class of an object.
pub(crate) fn class_at(domain: &Domain, o: ObjId) -> Option<&Class> {
    if domain.has(o) {
        domain.classes().get(domain.class_of(o).get())
    } else {
        None
    }
}

/// Writes the name of an object.
pub(crate) fn tell_object<W: Sink>(out: &mut Out<'_, W>, domain: &Domain, o: ObjId) {
    if let Some(name) = domain.object_name(o) {
        tell_name(out, &name);
    }
}

/// Writes the name of an action.
pub(crate) fn tell_action<W: Sink>(out: &mut Out<'_, W>, domain: &Domain, action: ActionId) {
    if let Some(name) = domain.action_name(action) {
        tell_name(out, &name);
    }
}

/// Writes that no object has a name, and which may have been meant.
pub(crate) fn tell_no_object<W: Sink>(out: &mut Out<'_, W>, domain: &Domain, name: &Name) {
    if domain.set(name).is_some() {
        tell_name(out, name);
        out.say(b" is a set, and a line is for one object");
        return;
    }
    if domain.class(name).is_some() {
        tell_name(out, name);
        out.say(b" is a class, and a line is for one object");
        return;
    }
    out.say(b"no object has the name ");
    tell_name(out, name);
    let mut nearest = Nearest::new(name);
    for o in 0..domain.objects() {
        if let Some(object) = domain.object_name(ObjId::new(o)) {
            nearest.offer(&object);
        }
    }
    tell_meant(out, &nearest);
}

/// Writes that a request names its action where its object should be, if that is so. The answer is whether it is so.
pub(crate) fn tell_swapped<W: Sink>(out: &mut Out<'_, W>, domain: &Domain, step: &Step) -> bool {
    let Step::Request {
        sender,
        object,
        action,
        ..
    } = step
    else {
        return false;
    };
    if domain.action(object).is_none() || domain.object(action).is_none() {
        return false;
    }
    tell_name(out, object);
    out.say(b" is an action: the object stands first, as in `request");
    tell_session(out, *sender);
    out.say(b" ");
    tell_name(out, action);
    out.say(b" ");
    tell_name(out, object);
    out.say(b"`");
    true
}

/// Writes that no class has an action, and which may have been meant.
pub(crate) fn tell_no_action<W: Sink>(out: &mut Out<'_, W>, domain: &Domain, name: &Name) {
    out.say(b"no class declares an action ");
    tell_name(out, name);
    let mut nearest = Nearest::new(name);
    for class in domain.classes() {
        offer_actions(&mut nearest, domain, class);
    }
    tell_meant(out, &nearest);
}

/// Writes that no class has a state, and which may have been meant.
pub(crate) fn tell_no_state<W: Sink>(out: &mut Out<'_, W>, domain: &Domain, name: &Name) {
    out.say(b"no class has a state ");
    tell_name(out, name);
    let mut nearest = Nearest::new(name);
    for class in domain.classes() {
        offer_states(&mut nearest, domain, class);
    }
    tell_meant(out, &nearest);
}

/// Writes that no set has a name, and which may have been meant.
pub(crate) fn tell_no_set<W: Sink>(out: &mut Out<'_, W>, domain: &Domain, name: &Name) {
    if domain.object(name).is_some() {
        tell_name(out, name);
        out.say(b" is an object, and a set has to stand there");
        return;
    }
    out.say(b"no set has the name ");
    tell_name(out, name);
    let mut nearest = Nearest::new(name);
    for group in domain.groups() {
        nearest.offer(&group.name);
    }
    tell_meant(out, &nearest);
}

// Offers the actions of a class.
fn offer_actions(nearest: &mut Nearest, domain: &Domain, class: &Class) {
    for signature in class.signatures.rows() {
        if let Some(name) = domain.action_name(signature.action) {
            nearest.offer(&name);
        }
    }
}

// Offers the states of a class.
fn offer_states(nearest: &mut Nearest, domain: &Domain, class: &Class) {
    for state in class.states.rows() {
        if let Some(name) = domain.state_name(state.number) {
            nearest.offer(&name);
        }
    }
}

// Writes a class, with its object.
fn tell_class<W: Sink>(out: &mut Out<'_, W>, domain: &Domain, class: &Class, o: ObjId) {
    out.say(b"class ");
    tell_name(out, &class.name);
    out.say(b" (of ");
    tell_object(out, domain, o);
    out.say(b")");
}

// Writes the actions of a class in brackets.
fn tell_actions<W: Sink>(out: &mut Out<'_, W>, domain: &Domain, class: &Class) {
    let mut list = NameList::new();
    for signature in class.signatures.rows() {
        if let Some(name) = domain.action_name(signature.action) {
            list.add(out, &name);
        }
    }
    list.end(out);
}

// Writes the states of a class in brackets.
fn tell_states<W: Sink>(out: &mut Out<'_, W>, domain: &Domain, class: &Class) {
    let mut list = NameList::new();
    for state in class.states.rows() {
        if let Some(name) = domain.state_name(state.number) {
            list.add(out, &name);
        }
    }
    list.end(out);
}

/// Writes that the class of an object does not declare an action, which it does declare, and which may have been meant.
pub(crate) fn tell_undeclared<W: Sink>(
    out: &mut Out<'_, W>,
    domain: &Domain,
    o: ObjId,
    action: &Name,
) {
    let Some(class) = class_at(domain, o) else {
        return;
    };
    tell_class(out, domain, class, o);
    out.say(b" declares no action ");
    tell_name(out, action);
    tell_actions(out, domain, class);
    let mut nearest = Nearest::new(action);
    offer_actions(&mut nearest, domain, class);
    tell_meant(out, &nearest);
}

/// Writes that the class of an object does not have a state, which it has, and which may have been meant.
pub(crate) fn tell_not_a_state<W: Sink>(
    out: &mut Out<'_, W>,
    domain: &Domain,
    o: ObjId,
    state: &Name,
) {
    let Some(class) = class_at(domain, o) else {
        return;
    };
    tell_class(out, domain, class, o);
    out.say(b" has no state ");
    tell_name(out, state);
    tell_states(out, domain, class);
    let mut nearest = Nearest::new(state);
    offer_states(&mut nearest, domain, class);
    tell_meant(out, &nearest);
}
