//! Instructions that choose, one in another, and prefixes of a text. (What conditions are read as are rows of
//! `tests_by_scripts`.)

use crate::texts::{has_file, refused, repeated, same_file};
use sml_tree::{Instr, Item, SmlFile};
use std::alloc::Global;
use test_domains::{MARKED, MARKED_IN_ONE_LINE};

const ACTION: &[u8] = b"class:K state:S action:G ";

#[test]
fn one_line_is_the_canonical_form(rt: HostRuntime) {
    assert!(rt; same_file(rt.alloc(), MARKED_IN_ONE_LINE, MARKED) == Some(true));
}

const WHOLE: usize = MARKED_IN_ONE_LINE.len();

// The lengths of the prefixes of the line that are files.
const FILES: &[usize] = &[
    0,
    7,
    8,
    9,
    16,
    27,
    41,
    42,
    50,
    51,
    62,
    WHOLE - 10,
    WHOLE - 9,
];

// Whether the text that ends here answers so.
fn is_answer(end: usize, refused: Option<(u8, usize)>) -> bool {
    match refused {
        None => FILES.contains(&end),
        Some((3, offset)) => offset < end && !FILES.contains(&end),
        Some((4, offset)) => offset <= end && !FILES.contains(&end),
        Some(_) => false,
    }
}

// Whether the prefix of this length is read or refused as it has to be.
fn is_front(alloc: Global, end: usize) -> bool {
    match MARKED_IN_ONE_LINE.get(..end) {
        Some(text) => is_answer(end, refused(alloc, text)),
        None => false,
    }
}

#[test]
fn every_prefix_is_read_or_refused(rt: HostRuntime) {
    for end in 0..WHOLE {
        assert!(rt; is_front(rt.alloc(), end), "at {end}");
    }
}

const OPEN: &[u8] = b"if(A in_state S)then ";

const SIXTEEN: &[u8] =
    b"endif endif endif endif endif endif endif endif endif endif endif endif endif endif endif endif ";

// The first instruction of the first action of a file.
fn first_instr(file: &SmlFile<Global>) -> Option<&Instr<Global>> {
    let Some(Item::Class(class)) = file.items.first() else {
        return None;
    };
    let action = class.states.first()?.actions.first()?;
    action.body.instrs.first()
}

/// Whether `depth` `if`s are nested in the first instruction of the first action.
pub fn is_deep(file: &SmlFile<Global>, depth: u32) -> bool {
    match first_instr(file) {
        Some(instr) => instr.depth() == depth,
        None => false,
    }
}

fn are_sixteen(alloc: Global) -> bool {
    match repeated(alloc, ACTION, OPEN, 16, SIXTEEN) {
        Ok(text) => has_file(alloc, &text, |file| is_deep(file, 16)),
        Err(_) => false,
    }
}

#[test]
fn sixteen_ifs_are_read(rt: HostRuntime) {
    assert!(rt; are_sixteen(rt.alloc()));
}
