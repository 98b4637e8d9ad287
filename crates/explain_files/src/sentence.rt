//! One sentence of a fault: what is wrong, and what may have been meant.

use crate::directory::{adds_dead, dead_name};
use crate::finding::{Detail, Finding, Site, Sort};
use crate::params::{tell_kinds, tell_missing, tell_param};
use crate::sorts::{tell_class, tell_object, tell_set};
use crate::subject::{Subject, tell_class_name, tell_comma, tell_nearest, tell_of};
use crate::teller::Teller;
use explain_places::Nearest;
use sml_check_faults::CheckKind;
use sml_text::Sink;
use sml_tree::{Class, Name};
use std::alloc::Global;

/// Writes the sentence of a fault.
pub(crate) fn tell_sentence<W: Sink>(
    out: &mut Teller<'_, '_, W>,
    subject: Subject<'_>,
    finding: &Finding,
) {
    match finding.kind {
        CheckKind::Duplicate => tell_twice(out, finding),
        CheckKind::NoState => tell_of(out, b"class ", &finding.name, b" has no states"),
        CheckKind::TwoInitial => tell_marks(out, finding, b"`/initial_state`"),
        CheckKind::TwoDead => tell_marks(out, finding, b"`/dead_state`"),
        CheckKind::UnknownClass => tell_class(out, subject, finding),
        CheckKind::UnknownObject => tell_object(out, subject, finding),
        CheckKind::UnknownSet => tell_set(out, subject, finding),
        CheckKind::UnknownState => tell_state(out, subject, finding),
        CheckKind::UnknownAction => tell_action(out, subject, finding),
        CheckKind::UnknownParam => tell_param(out, subject, finding),
        CheckKind::KindMismatch => tell_kinds(out, finding),
        CheckKind::MissingArg => tell_missing(out, subject, finding),
        CheckKind::ParamsDiffer => tell_differing(out, finding),
        CheckKind::SelfInCondition => tell_self(out, subject, finding),
        CheckKind::AssociatedBody => tell_body(out, subject, finding),
        CheckKind::Memory => {}
    }
    tell_insert(out, finding);
}

// That the object of a fault is inserted into the set, if it is no member of it.
fn tell_insert<W: Sink>(out: &mut Teller<'_, '_, W>, finding: &Finding) {
    let object = match finding.detail {
        Detail::Called {
            object,
            is_inserted: true,
            ..
        } => object,
        Detail::Tested {
            object,
            is_inserted: true,
            ..
        } => object,
        Detail::Read {
            is_inserted: true,
            ..
        } => finding.name,
        _ => return,
    };
    tell_of(out, b" (an `insert` puts ", &object, b" into the set)");
}

// What is of a sort, in words.
fn sort_words(sort: Sort) -> &'static [u8] {
    match sort {
        Sort::Class => b"class",
        Sort::Object => b"object",
        Sort::Set => b"set",
        Sort::State => b"state of this class",
        Sort::Action => b"action of this state",
        Sort::ClassParam => b"parameter of this class",
        Sort::Param => b"parameter of this action or its class",
        Sort::Member => b"member of this set",
        Sort::Argument => b"argument of this `do`",
    }
}

// Of what sort a name is that occurs twice, and where it occurs first.
fn tell_twice<W: Sink>(out: &mut Teller<'_, '_, W>, finding: &Finding) {
    let Detail::First { sort, at } = finding.detail else {
        return;
    };
    out.say(b"a second ");
    out.say(sort_words(sort));
    tell_of(out, b" is named ", &finding.name, b": the first stands at ");
    out.spot(at);
}

// Two states with a mark.
fn tell_marks<W: Sink>(out: &mut Teller<'_, '_, W>, finding: &Finding, mark: &[u8]) {
    let Detail::First { at, .. } = finding.detail else {
        return;
    };
    tell_of(
        out,
        b"a second state of class ",
        &finding.name,
        b" is marked ",
    );
    out.say(mark);
    out.say(b": the first stands at ");
    out.spot(at);
}

// The states of a class, and the one of them that may have been meant.
fn tell_states<W: Sink>(out: &mut Teller<'_, '_, W>, class: &Class<Global>, name: &Name) {
    let mut nearest = Nearest::new(name);
    out.say(b" (");
    for (i, state) in class.states.iter().enumerate() {
        tell_comma(out, i);
        out.name(&state.name);
        nearest.offer(&state.name);
    }
    if adds_dead(class) {
        tell_comma(out, class.states.len());
        out.name(&dead_name());
        nearest.offer(&dead_name());
    }
    out.say(b")");
    tell_nearest(out, &nearest);
}

// A state that a class does not have.
fn tell_state<W: Sink>(out: &mut Teller<'_, '_, W>, subject: Subject<'_>, finding: &Finding) {
    let place = match finding.detail {
        Detail::Class(class) | Detail::Tested { class, .. } => class,
        _ => return,
    };
    if let Detail::Tested { is_set: true, .. } = finding.detail {
        tell_of(
            out,
            b"no member of the set has a state ",
            &finding.name,
            b": ",
        );
    }
    tell_class_name(out, subject, place);
    match finding.detail {
        Detail::Tested {
            is_set: true,
            object,
            ..
        } => tell_of(out, b" of ", &object, b" has others"),
        Detail::Tested { object, .. } => {
            tell_of(out, b" of ", &object, b" has no state ");
            out.name(&finding.name);
        }
        _ => tell_of(out, b" has no state ", &finding.name, b""),
    }
    if let Some(class) = subject.directory.class_at(place) {
        tell_states(out, class, &finding.name);
    }
}

// An action that a class declares in no state.
fn tell_action<W: Sink>(out: &mut Teller<'_, '_, W>, subject: Subject<'_>, finding: &Finding) {
    let Detail::Called { class, object, .. } = finding.detail else {
        return;
    };
    tell_class_name(out, subject, class);
    tell_of(out, b" of ", &object, b" declares no action ");
    out.name(&finding.name);
    let mut nearest = Nearest::new(&finding.name);
    if let Some(class) = subject.directory.class_at(class) {
        offer_actions(&mut nearest, class);
    }
    tell_nearest(out, &nearest);
}

// Offers the actions of a class.
fn offer_actions(nearest: &mut Nearest, class: &Class<Global>) {
    for state in &class.states {
        for action in &state.actions {
            nearest.offer(&action.name);
        }
    }
}

// An action with two lists of parameters.
fn tell_differing<W: Sink>(out: &mut Teller<'_, '_, W>, finding: &Finding) {
    let Detail::First { at, .. } = finding.detail else {
        return;
    };
    tell_of(
        out,
        b"action ",
        &finding.name,
        b" has other parameters than where its class declares it first, at ",
    );
    out.spot(at);
}

// A condition or a `wait` that reads an object of the class that it is in.
fn tell_self<W: Sink>(out: &mut Teller<'_, '_, W>, subject: Subject<'_>, finding: &Finding) {
    let Detail::Read { class, site, .. } = finding.detail else {
        return;
    };
    out.name(&finding.name);
    out.say(b" is an object of ");
    tell_class_name(out, subject, class);
    out.say(match site {
        Site::Waited => b" itself, and its `wait`s are for objects of other classes alone",
        _ => b" itself, and its conditions read objects of other classes alone",
    });
}

// An action with instructions in an associated class.
fn tell_body<W: Sink>(out: &mut Teller<'_, '_, W>, subject: Subject<'_>, finding: &Finding) {
    let Detail::Class(class) = finding.detail else {
        return;
    };
    tell_class_name(out, subject, class);
    tell_of(
        out,
        b" is associated: a device performs ",
        &finding.name,
        b", which may have no instructions",
    );
}
