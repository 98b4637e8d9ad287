//! The lines of a listing.

use show_names::{tell_object, tell_value};
use sml_domain::{Action, Class, Domain, Group, ObjId, Param, State, StateId};
use sml_text::Sink;
use sml_tree::{Kind, Name};
use sml_writer::Out;

/// Writes what a domain declares, one thing a line and each line complete in itself. First come the classes, each
/// followed by its parameters and its states, and each state by its actions; then the objects, then the sets, all as
/// they are declared. Nothing is written behind a write that failed.
///
/// ```text
/// class CLASS [associated]
/// param CLASS NAME KIND VALUE
/// state CLASS STATE [initial] [dead]
/// action CLASS STATE ACTION [(KIND NAME [= VALUE], ..)]
/// object OBJECT CLASS
/// set SET OBJECT..
/// ```
///
/// `initial` and `dead` are there if the domain has them, also where no mark is set; the added `DEAD` is a state as
/// others are. No memory is taken; the time grows with the length of what is written.
pub fn tell_list<W: Sink>(out: &mut Out<'_, W>, domain: &Domain) {
    tell_classes(out, domain);
    tell_objects(out, domain);
    tell_groups(out, domain);
}

/// Writes what a domain declares, as [`tell_list`] does, and how it begins in a log that follows another: the sets have
/// the members that they begin with, and last comes a line for each object that begins in another state.
///
/// ```text
/// begins OBJECT STATE
/// ```
///
/// No memory is taken; the time grows with the length of what is written.
pub fn tell_begun_list<W: Sink>(out: &mut Out<'_, W>, declared: &Domain, begun: &Domain) {
    tell_classes(out, declared);
    tell_objects(out, declared);
    tell_groups(out, begun);
    tell_beginnings(out, declared, begun);
}

// How each object begins, where that is not as declared.
fn tell_beginnings<W: Sink>(out: &mut Out<'_, W>, declared: &Domain, begun: &Domain) {
    for number in 0..declared.objects() {
        tell_beginning(out, declared, begun, ObjId::new(number));
    }
}

// How an object begins, where that is not as declared.
fn tell_beginning<W: Sink>(out: &mut Out<'_, W>, declared: &Domain, begun: &Domain, o: ObjId) {
    if !declared.has(o) || !begun.has(o) {
        return;
    }
    let state = begun.initial(o);
    if state.get() != declared.initial(o).get() {
        out.say(b"begins");
        tell_object(out, declared, o);
        tell_known(out, begun.state_name(state));
        out.say(b"\n");
    }
}

// All classes.
fn tell_classes<W: Sink>(out: &mut Out<'_, W>, domain: &Domain) {
    for class in domain.classes() {
        tell_class(out, domain, class);
    }
}

// All sets, a line each.
fn tell_groups<W: Sink>(out: &mut Out<'_, W>, domain: &Domain) {
    for group in domain.groups() {
        tell_group(out, domain, group);
    }
}

// A name with a blank before it.
fn tell_name<W: Sink>(out: &mut Out<'_, W>, name: &Name) {
    out.say(b" ");
    out.say(name.as_bytes());
}

// A name that a number may have, with a blank before it.
fn tell_known<W: Sink>(out: &mut Out<'_, W>, name: Option<Name>) {
    if let Some(name) = name {
        tell_name(out, &name);
    }
}

// A word, where it holds.
fn tell_mark<W: Sink>(out: &mut Out<'_, W>, holds: bool, mark: &[u8]) {
    if holds {
        out.say(mark);
    }
}

// A class, its parameters and its states.
fn tell_class<W: Sink>(out: &mut Out<'_, W>, domain: &Domain, class: &Class) {
    out.say(b"class");
    tell_name(out, &class.name);
    tell_mark(out, class.associated, b" associated");
    out.say(b"\n");
    tell_class_params(out, class);
    for state in class.states.rows() {
        tell_state(out, domain, class, state);
        tell_actions(out, domain, class, state);
    }
}

// The parameters of a class, a line each.
fn tell_class_params<W: Sink>(out: &mut Out<'_, W>, class: &Class) {
    for param in &class.params {
        out.say(b"param");
        tell_name(out, &class.name);
        tell_name(out, &param.name);
        out.say(b" ");
        out.say(kind_word(param.kind));
        tell_value_of(out, b" ", param);
        out.say(b"\n");
    }
}

// The word of a kind.
fn kind_word(kind: Kind) -> &'static [u8] {
    match kind {
        Kind::Int => b"int",
        Kind::Str => b"string",
    }
}

// The value of a parameter behind some bytes, where it has one.
fn tell_value_of<W: Sink>(out: &mut Out<'_, W>, before: &[u8], param: &Param) {
    if let Some(value) = &param.value {
        out.say(before);
        tell_value(out, value);
    }
}

// The line of a state.
fn tell_state<W: Sink>(out: &mut Out<'_, W>, domain: &Domain, class: &Class, state: &State) {
    tell_place(out, domain, b"state", class, state.number);
    let number = state.number.get();
    tell_mark(out, class.initial.get() == number, b" initial");
    tell_mark(out, class.dead.get() == number, b" dead");
    out.say(b"\n");
}

// What a line is of, with a class and its state.
fn tell_place<W: Sink>(
    out: &mut Out<'_, W>,
    domain: &Domain,
    word: &[u8],
    class: &Class,
    state: StateId,
) {
    out.say(word);
    tell_name(out, &class.name);
    tell_known(out, domain.state_name(state));
}

// The actions of a state, a line each.
fn tell_actions<W: Sink>(out: &mut Out<'_, W>, domain: &Domain, class: &Class, state: &State) {
    for action in state.actions.rows() {
        tell_place(out, domain, b"action", class, state.number);
        tell_action(out, domain, class, action);
        out.say(b"\n");
    }
}

// An action with its parameters.
fn tell_action<W: Sink>(out: &mut Out<'_, W>, domain: &Domain, class: &Class, action: &Action) {
    tell_known(out, domain.action_name(action.number));
    if let Some(signature) = class.signatures.get(action.number.get()) {
        tell_params(out, &signature.params);
    }
}

// The parameters of an action in brackets, where there are some.
fn tell_params<W: Sink>(out: &mut Out<'_, W>, params: &[Param]) {
    if params.is_empty() {
        return;
    }
    let mut before: &[u8] = b" (";
    for param in params {
        out.say(before);
        tell_param(out, param);
        before = b", ";
    }
    out.say(b")");
}

// A parameter of an action, with its default where it has one.
fn tell_param<W: Sink>(out: &mut Out<'_, W>, param: &Param) {
    out.say(kind_word(param.kind));
    tell_name(out, &param.name);
    tell_value_of(out, b" = ", param);
}

// All objects, a line each.
fn tell_objects<W: Sink>(out: &mut Out<'_, W>, domain: &Domain) {
    for number in 0..domain.objects() {
        let o = ObjId::new(number);
        out.say(b"object");
        tell_object(out, domain, o);
        tell_class_of(out, domain, o);
        out.say(b"\n");
    }
}

// The class of an object, where there is one.
fn tell_class_of<W: Sink>(out: &mut Out<'_, W>, domain: &Domain, o: ObjId) {
    if domain.has(o) {
        if let Some(class) = domain.classes().get(domain.class_of(o).get()) {
            tell_name(out, &class.name);
        }
    }
}

// A set and its members.
fn tell_group<W: Sink>(out: &mut Out<'_, W>, domain: &Domain, group: &Group) {
    out.say(b"set");
    tell_name(out, &group.name);
    for member in &group.members {
        tell_object(out, domain, *member);
    }
    out.say(b"\n");
}
