//! What sets may come to have, and the faults that follow from it.

use crate::domain_of::{checked, is_refused};
use crate::texts::{refused, repeated};
use sml_check::CheckKind;
use std::alloc::Global;

// The name of a row, a text, and its fault: the kind and the name.
type Row = (&'static str, &'static [u8], CheckKind, &'static [u8]);

// Faults of the names in the instructions themselves.
const NAMES: &[Row] = &[
    (
        "insert of no object",
        b"class: K state: S action: GO insert NOPE in G objectset: G { }",
        CheckKind::UnknownObject,
        b"NOPE",
    ),
    (
        "remove of no object",
        b"class: K state: S action: GO remove NOPE from G objectset: G { }",
        CheckKind::UnknownObject,
        b"NOPE",
    ),
    (
        "insert into no set",
        b"class: K state: S action: GO insert X in NOPE object: X is_of_class K",
        CheckKind::UnknownSet,
        b"NOPE",
    ),
    (
        "remove from no set",
        b"class: K state: S action: GO remove X from NOPE object: X is_of_class K",
        CheckKind::UnknownSet,
        b"NOPE",
    ),
    (
        "object before set",
        b"class: K state: S action: GO remove X from NOPE insert NONE in NOPE object: X is_of_class K",
        CheckKind::UnknownObject,
        b"NONE",
    ),
    (
        "a set is no object",
        b"class: K state: S action: GO insert G in G objectset: G { }",
        CheckKind::UnknownObject,
        b"G",
    ),
    (
        "an object is no set",
        b"class: K state: S action: GO insert X in X object: X is_of_class K",
        CheckKind::UnknownSet,
        b"X",
    ),
    (
        "the first in the text",
        b"class: K state: S action: GO if ( not all_in G in_state S ) then else insert B in G endif remove A from G
objectset: G { C }",
        CheckKind::UnknownObject,
        b"B",
    ),
    (
        "instructions of a device",
        b"class: K /associated state: S action: GO insert X in G object: X is_of_class K objectset: G { }",
        CheckKind::AssociatedBody,
        b"GO",
    ),
];

// Faults at tests and requests of sets that have no such member, but may come to have one.
const COMING: &[Row] = &[
    (
        "its own object, inserted before",
        b"class: K state: S action: GO insert X in G if ( all_in G in_state S ) then endif
object: X is_of_class K objectset: G { }",
        CheckKind::SelfInCondition,
        b"X",
    ),
    (
        "its own object, inserted by a class without objects",
        b"class: K state: S action: GO if ( any_in G in_state S ) then endif
class: N state: S action: GO if ( Y in_state S ) then else insert X in G endif
object: X is_of_class K object: Y is_of_class K objectset: G { }",
        CheckKind::SelfInCondition,
        b"X",
    ),
    (
        "its own object, inserted by a device",
        b"class: K state: S action: GO if ( any_in G in_state S ) then endif
class: N /associated state: S action: GO insert X in G object: X is_of_class K objectset: G { }",
        CheckKind::SelfInCondition,
        b"X",
    ),
    (
        "its own object, waited for",
        b"class: K state: S action: GO wait ( Y, all_in G ) insert X in G class: L state: S
object: X is_of_class K object: Y is_of_class L objectset: G { Y }",
        CheckKind::SelfInCondition,
        b"X",
    ),
    (
        "the first that is inserted",
        b"class: K state: S action: GO insert B in G insert A in G if ( all_in G in_state S ) then endif
object: A is_of_class K object: B is_of_class K objectset: G { }",
        CheckKind::SelfInCondition,
        b"B",
    ),
    (
        "a member before what is inserted",
        b"class: K state: S action: GO insert B in G if ( all_in G in_state S ) then endif
object: A is_of_class K object: B is_of_class K objectset: G { A }",
        CheckKind::SelfInCondition,
        b"A",
    ),
    (
        "a state of nothing that may come",
        b"class: K state: S action: GO insert Y in G if ( all_in G in_state { ON, NOWHERE } ) then endif
class: L state: ON object: Y is_of_class L objectset: G { }",
        CheckKind::UnknownState,
        b"NOWHERE",
    ),
    (
        "an action that what comes does not have",
        b"class: K state: S action: GO do LIGHT all_in G class: L state: S class: M state: S action: LIGHT
class: N state: S action: GO insert Y in G object: Y is_of_class L object: Z is_of_class M objectset: G { Z }",
        CheckKind::UnknownAction,
        b"LIGHT",
    ),
    (
        "an argument that what comes does not take",
        b"class: K state: S action: GO do LIGHT (N = 1) all_in G insert Y in G class: L state: S action: LIGHT
object: Y is_of_class L objectset: G { }",
        CheckKind::UnknownParam,
        b"N",
    ),
    (
        "an argument of another kind than what comes takes",
        b"class: K state: S action: GO do LIGHT (N = 1) all_in G insert Y in G
class: L state: S action: LIGHT (string N) object: Y is_of_class L objectset: G { }",
        CheckKind::KindMismatch,
        b"N",
    ),
    (
        "an argument that what comes needs",
        b"class: K state: S action: GO do LIGHT all_in G insert Y in G
class: L state: S action: LIGHT (int M = 1, int N) object: Y is_of_class L objectset: G { }",
        CheckKind::MissingArg,
        b"N",
    ),
];

#[test]
fn changes_have_faults(rt: HostRuntime) {
    for (row, text, kind, name) in NAMES {
        assert!(rt; is_refused(rt.alloc(), text, *kind, name), "{row}");
    }
}

#[test]
fn sets_are_judged_by_what_may_come(rt: HostRuntime) {
    for (row, text, kind, name) in COMING {
        assert!(rt; is_refused(rt.alloc(), text, *kind, name), "{row}");
    }
}

// Texts without a fault.
const GOOD: &[(&str, &[u8])] = &[
    (
        "what is taken out does not come",
        b"class: K state: S action: GO remove X from G if ( all_in G in_state S ) then endif
object: X is_of_class K objectset: G { }",
    ),
    (
        "what is taken out takes no requests",
        b"class: K state: S action: GO do NOPE (N = 1) all_in G remove X from G
object: X is_of_class K objectset: G { }",
    ),
    (
        "another set is not changed",
        b"class: K state: S action: GO insert X in H if ( all_in G in_state S ) then endif
object: X is_of_class K objectset: G { } objectset: H { }",
    ),
    (
        "what comes has the state that no member has",
        b"class: K state: S action: GO if ( all_in G in_state ON ) then endif insert Y in G class: L state: ON
class: M state: S object: Y is_of_class L object: Z is_of_class M objectset: G { Z }",
    ),
    (
        "what comes has the action",
        b"class: K state: S action: GO do LIGHT (N = 1) all_in G insert Y in G
class: L state: S action: LIGHT (int N) object: Y is_of_class L objectset: G { }",
    ),
    (
        "again and again",
        b"class: K state: S action: GO insert X in G insert X in G remove X from G remove X from G
object: X is_of_class K objectset: G { X }",
    ),
    (
        "nothing comes to a set that is not changed",
        b"class: K state: S action: GO do NOPE all_in G if ( any_in G in_state NOWHERE ) then endif
object: X is_of_class K objectset: G { }",
    ),
];

// Whether a text is read, and has no fault.
fn is_good(alloc: Global, text: &[u8]) -> bool {
    let answer = checked(alloc, text);
    let so = match &answer {
        Some(Ok(_)) => true,
        _ => false,
    };
    drop(answer);
    so
}

#[test]
fn changes_without_faults(rt: HostRuntime) {
    for (row, text) in GOOD {
        assert!(rt; is_good(rt.alloc(), text), "{row}");
    }
}

// An action that changes a set, and the set, which begins with one member.
const MEMBERS: &[u8] = b"class:K state:S action:G insert A in G objectset:G{A";

// How a set of one member and a number of further ones is refused, into which an object is inserted too.
fn refused_members(alloc: Global, more: usize) -> Option<(u8, usize)> {
    match repeated(alloc, MEMBERS, b",A", more, b"}") {
        Ok(text) => refused(alloc, &text),
        Err(_) => None,
    }
}

#[test]
fn members_are_counted_without_what_comes(rt: HostRuntime) {
    assert!(rt; refused_members(rt.alloc(), 63).is_none());
    assert!(rt; refused_members(rt.alloc(), 64) == Some((6, 179)));
}
