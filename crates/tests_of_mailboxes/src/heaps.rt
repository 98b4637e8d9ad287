//! The files of domains in heaps of every size, and in an arena.

use crate::domains::TEXTS;
use bumpalo::Bump;
use linked_list_allocator::LocalHeap;
use sml_read::{ReadError, ReadErrorKind, read};
use sml_tree::SmlFile;
use std::alloc::{Allocator, Global};
use std::test::*;

// The sizes of heaps begin so, and are doubled up to the last.
const SMALLEST: usize = 256;

const LARGEST: usize = 1_048_576;

const OUT_OF_MEMORY: ReadError = ReadError {
    kind: ReadErrorKind::Memory,
    offset: 0,
};

// Whether a text is read into some memory as a file, or None if the memory is too small.
fn is_read_into<A: Allocator + Clone>(
    memory: A,
    text: &[u8],
    file: &SmlFile<Global>,
) -> Option<bool> {
    let other = read(memory, text);
    let same = match &other {
        Ok(other) => Some(other.same(file)),
        Err(error) if *error == OUT_OF_MEMORY => None,
        Err(_) => Some(false),
    };
    drop(other);
    same
}

// Whether the file of a text is copied from a heap into a smaller one, or None if that is too small. In both cases
// the file is as it was.
fn is_copied_into(
    large: &LocalHeap,
    small: &LocalHeap,
    text: &[u8],
    file: &SmlFile<Global>,
) -> Option<bool> {
    let source = read(large, text).ok()?;
    let copy = source.copy_in(small);
    let same = match &copy {
        Ok(copy) => Some(copy.same(&source) && source.same(file)),
        Err(_) if source.same(file) => None,
        Err(_) => Some(false),
    };
    drop(copy);
    drop(source);
    same
}

// Whether what was found in a heap of a size is right: the smallest is too small, and the largest is not.
fn is_right_in(found: Option<bool>, size: usize) -> bool {
    match found {
        Some(same) => same && size > SMALLEST,
        None => size < LARGEST,
    }
}

// Whether a file is read into a heap of a size and copied into it as it must be, and nothing stays there.
fn goes_in(
    alloc: Global,
    size: usize,
    large: &LocalHeap,
    text: &[u8],
    file: &SmlFile<Global>,
) -> bool {
    let Ok(heap) = LocalHeap::new(alloc, size) else {
        return false;
    };
    is_right_in(is_read_into(&heap, text, file), size)
        && heap.used() == 0
        && is_right_in(is_copied_into(large, &heap, text, file), size)
        && heap.used() == 0
        && large.used() == 0
}

// Whether a file goes so in heaps of all sizes, and in an arena.
fn goes_in_all(alloc: Global, text: &[u8]) -> Option<bool> {
    let file = read(alloc, text).ok()?;
    let large = LocalHeap::new(alloc, LARGEST).ok()?;
    let bump = Bump::new(alloc);
    let mut goes = is_read_into(&bump, text, &file) == Some(true);
    for doubled in 0..13u32 {
        goes = goes && goes_in(alloc, SMALLEST << doubled, &large, text, &file);
    }
    drop(file);
    Some(goes)
}

#[test]
fn heaps_have_a_file_or_no_room(rt: HostRuntime) {
    for (name, text, _) in &TEXTS {
        assert!(rt; goes_in_all(rt.alloc(), text) == Some(true), "{name}");
    }
}
