//! Texts read into several memories.

use crate::texts::{are_same_file, is_copied, is_copied_as};
use bumpalo::Bump;
use linked_list_allocator::LocalHeap;
use sml_read::{ReadError, ReadErrorKind, read};
use std::alloc::Global;
use std::test::Fail;
use test_domains::{LAMP, MARKED_IN_ONE_LINE, SUPPLIES};

const TEXTS: &[(&str, &[u8])] = &[
    ("a lamp", LAMP),
    ("supplies", SUPPLIES),
    ("a class in one line", MARKED_IN_ONE_LINE),
];

fn is(error: Option<ReadError>, kind: ReadErrorKind, offset: usize) -> bool {
    error == Some(ReadError { kind, offset })
}

#[test]
fn reads_into_an_arena(rt: HostRuntime) -> Result<(), Fail> {
    let mut bump = Bump::new(rt.alloc());
    assert!(rt; are_same_file(rt.alloc(), LAMP, &bump, LAMP) == Some(true));
    bump.reset()?;
    Ok(())
}

// Whether the copy in an arena of the file of a text is the file of another text; None if it cannot be made.
fn is_copied_as_that_of(bump: &Bump, alloc: Global, text: &[u8], other: &[u8]) -> Option<bool> {
    let files = (read(alloc, text), read(alloc, other));
    let same = match &files {
        (Ok(file), Ok(other)) => is_copied_as(file, bump, other),
        _ => None,
    };
    drop(files);
    same
}

#[test]
fn copies_into_an_arena(rt: HostRuntime) -> Result<(), Fail> {
    let mut bump = Bump::new(rt.alloc());
    for (name, text) in TEXTS {
        assert!(rt; is_copied(rt.alloc(), text, &bump) == Some(true), "{name}");
        bump.reset()?;
    }
    assert!(rt; is_copied_as_that_of(&bump, rt.alloc(), MARKED_IN_ONE_LINE, LAMP) == Some(false));
    Ok(())
}

// Whether a text is refused so in a heap, and nothing stays in it.
fn is_refused_in(heap: &LocalHeap, text: &[u8], kind: ReadErrorKind, offset: usize) -> bool {
    is(read(heap, text).err(), kind, offset) && heap.used() == 0
}

fn has_items(heap: &LocalHeap, text: &[u8], items: usize) -> bool {
    let file = read(heap, text);
    let has = match &file {
        Ok(file) => file.items.len() == items,
        Err(_) => false,
    };
    drop(file);
    has
}

// Whether a text is read into a heap and has `items` items, and nothing stays in the heap.
fn is_read_in(heap: &LocalHeap, text: &[u8], items: usize) -> bool {
    has_items(heap, text, items) && heap.used() == 0
}

#[test]
fn reads_supplies_where_memory_is(rt: HostRuntime) -> Result<(), Fail> {
    let small = LocalHeap::new(rt.alloc(), 256)?;
    assert!(rt; is_refused_in(&small, SUPPLIES, ReadErrorKind::Memory, 0));
    let large = LocalHeap::new(rt.alloc(), 1_048_576)?;
    assert!(rt; is_read_in(&large, SUPPLIES, 6));
    Ok(())
}

#[test]
fn leaves_nothing_in_a_heap(rt: HostRuntime) -> Result<(), Fail> {
    let heap = LocalHeap::new(rt.alloc(), 65536)?;
    assert!(rt; is_read_in(&heap, LAMP, 2));
    assert!(rt;
        is_refused_in(
            &heap,
            b"class: A state: S class",
            ReadErrorKind::Unexpected,
            23
        )
    );
    Ok(())
}

#[test]
fn refuses_where_memory_ends(rt: HostRuntime) -> Result<(), Fail> {
    let small = LocalHeap::new(rt.alloc(), 1024)?;
    assert!(rt; is_refused_in(&small, LAMP, ReadErrorKind::Memory, 0));
    assert!(rt; is_refused_in(&small, b"class: 9A", ReadErrorKind::BadToken, 7));
    Ok(())
}
