//! Instructions that change sets: how they are read, printed and refused.

use crate::texts::{has_file, is_copied, refused, repeated, same_file};
use sml_print::print;
use sml_tree::{Instr, Item, SmlFile};
use std::alloc::{AllocError, Global};

// Both instructions, and their canonical text.
const BOTH: &[u8] = b"class:k state:s action:go Insert a IN g remove !so\nA from G";

const PRINTED: &[u8] = b"class: K
  state: S
    action: GO
      insert A in G
      remove A from G
";

// Whether two names are these.
fn are_named(member: &[u8], set: &[u8]) -> bool {
    member == b"A".as_slice() && set == b"G".as_slice()
}

// Whether an instruction is an `insert`, or else a `remove`, of A in G.
fn is_change(instr: Option<&Instr<Global>>, is_insert: bool) -> bool {
    match instr {
        Some(Instr::Insert { member, set }) => {
            is_insert && are_named(member.as_bytes(), set.as_bytes())
        }
        Some(Instr::Remove { member, set }) => {
            !is_insert && are_named(member.as_bytes(), set.as_bytes())
        }
        _ => false,
    }
}

// Whether the only action of a file has the two instructions and no other.
fn has_both(file: &SmlFile<Global>) -> bool {
    let Some(Item::Class(class)) = file.items.as_slice().first() else {
        return false;
    };
    let Some(state) = class.states.as_slice().first() else {
        return false;
    };
    let Some(action) = state.actions.as_slice().first() else {
        return false;
    };
    let instrs = &action.body.instrs;
    instrs.len() == 2 && is_change(instrs.get(0), true) && is_change(instrs.get(1), false)
}

// Whether a file is printed so.
fn is_printed(alloc: Global, file: &SmlFile<Global>, text: &[u8]) -> bool {
    let printed = print(alloc, file);
    let so = match &printed {
        Ok(printed) => printed.as_slice() == text,
        Err(_) => false,
    };
    drop(printed);
    so
}

#[test]
fn changes_are_read_and_printed(rt: HostRuntime) {
    assert!(rt; has_file(rt.alloc(), BOTH, has_both));
    assert!(rt;
        has_file(
            rt.alloc(),
            BOTH,
            |file| is_printed(rt.alloc(), file, PRINTED)
        )
    );
    assert!(rt; same_file(rt.alloc(), BOTH, PRINTED) == Some(true));
    assert!(rt; is_copied(rt.alloc(), BOTH, rt.alloc()) == Some(true));
}

// Texts that differ from those of another instruction, object or set.
const OTHERS: &[(&str, &[u8], &[u8])] = &[
    ("another instruction", b"insert A in G", b"remove A from G"),
    (
        "another object of an insert",
        b"insert A in G",
        b"insert B in G",
    ),
    (
        "another set of an insert",
        b"insert A in G",
        b"insert A in H",
    ),
    (
        "another object of a remove",
        b"remove A from G",
        b"remove B from G",
    ),
    (
        "another set of a remove",
        b"remove A from G",
        b"remove A from H",
    ),
    (
        "object and set exchanged",
        b"insert A in G",
        b"insert G in A",
    ),
];

const ACTION: &[u8] = b"class:K state:S action:G ";

// An action of these instructions.
fn action(alloc: Global, instrs: &[u8]) -> Result<Vec<u8>, AllocError> {
    repeated(alloc, ACTION, b"", 0, instrs)
}

// Whether two instructions are read as two files.
fn differ(alloc: Global, left: &[u8], right: &[u8]) -> Result<bool, AllocError> {
    let left = action(alloc, left)?;
    let right = action(alloc, right)?;
    Ok(same_file(alloc, &left, &right) == Some(false))
}

#[test]
fn changes_differ(rt: HostRuntime) {
    for (name, left, right) in OTHERS {
        assert!(rt; differ(rt.alloc(), left, right) == Ok(true), "{name}");
    }
}

// Instructions behind 25 bytes, and how the text is refused.
const REFUSED: &[(&str, &[u8], Option<(u8, usize)>)] = &[
    ("an insert", b"insert A in G", None),
    ("a remove", b"remove A from G", None),
    (
        "two in a row",
        b"insert A in G insert A in G move_to S",
        None,
    ),
    ("no words", b"insert", Some((4, 31))),
    ("no set", b"insert A in", Some((4, 36))),
    ("no word between", b"insert A G", Some((4, 34))),
    ("from of an insert", b"insert A from G", Some((4, 34))),
    ("in of a remove", b"remove A in G", Some((4, 34))),
    (
        "a set behind all_in",
        b"insert A in all_in G",
        Some((4, 37)),
    ),
    ("two objects", b"insert A, B in G", Some((4, 33))),
    ("brackets", b"insert ( A ) in G", Some((4, 32))),
    ("a reserved name", b"insert in in G", Some((4, 32))),
    ("a word that is none", b"inserts A in G", Some((4, 25))),
    ("outside an instruction", b"in", Some((4, 25))),
    ("a name behind it", b"insert A in G B", Some((4, 39))),
];

// How an action of these instructions is refused.
fn refused_action(alloc: Global, instrs: &[u8]) -> Option<(u8, usize)> {
    let text = action(alloc, instrs).ok()?;
    refused(alloc, &text)
}

#[test]
fn changes_are_refused(rt: HostRuntime) {
    for (row, instrs, answer) in REFUSED {
        assert!(rt; refused_action(rt.alloc(), instrs) == *answer, "{row}");
    }
}

// An action of very many changes, more than any list has things.
fn is_long_read(alloc: Global) -> bool {
    match repeated(alloc, ACTION, b"insert A in G remove A from G ", 1000, b"") {
        Ok(text) => refused(alloc, &text).is_none(),
        Err(_) => false,
    }
}

#[test]
fn changes_have_no_limit(rt: HostRuntime) {
    assert!(rt; is_long_read(rt.alloc()));
}
