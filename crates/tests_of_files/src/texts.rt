//! Texts that tests are made of, and what is said about them.

use sml_read::read;
use sml_tree::{Name, SmlFile};
use std::alloc::{AllocError, Allocator, Global};

/// Whether a name is this text.
pub fn is(name: &Name, text: &[u8]) -> bool {
    name.as_bytes() == text
}

/// How a text is refused: the number of the kind, and the offset.
pub fn refused(alloc: Global, text: &[u8]) -> Option<(u8, usize)> {
    let error = read(alloc, text).err()?;
    Some((error.kind.number(), error.offset))
}

/// A text of three parts, the middle one `count` times.
pub fn repeated(
    alloc: Global,
    front: &[u8],
    middle: &[u8],
    count: usize,
    end: &[u8],
) -> Result<Vec<u8>, AllocError> {
    let mut text = Vec::from_slice(alloc, front)?;
    for _ in 0..count {
        text.extend_from_slice(middle)?;
    }
    text.extend_from_slice(end)?;
    Ok(text)
}

/// Whether a text is read, and this is so of its file.
pub fn has_file<F: FnOnce(&SmlFile<Global>) -> bool>(alloc: Global, text: &[u8], is_so: F) -> bool
    requires { F.IsAlwaysCallable is_so }
{
    let file = read(alloc, text);
    let so = match &file {
        Ok(file) => is_so(file),
        Err(_) => false,
    };
    drop(file);
    so
}

// Whether two files are the same, or None if each of them answers something else.
fn sameness<A: Allocator + Clone, B: Allocator + Clone>(
    file: &SmlFile<A>,
    other: &SmlFile<B>,
) -> Option<bool> {
    let same = file.same(other);
    if same == other.same(file) {
        Some(same)
    } else {
        None
    }
}

/// Whether a text is read into some memory as this file, or None if it is not read.
pub fn is_read_as<A: Allocator + Clone, B: Allocator + Clone>(
    alloc: A,
    text: &[u8],
    other: &SmlFile<B>,
) -> Option<bool> {
    let file = read(alloc, text);
    let same = match &file {
        Ok(file) => sameness(file, other),
        Err(_) => None,
    };
    drop(file);
    same
}

/// Whether the copy of a file in some memory is this file, or None if there is no copy.
pub fn is_copied_as<A: Allocator + Clone, B: Allocator + Clone, C: Allocator + Clone>(
    file: &SmlFile<A>,
    alloc: B,
    other: &SmlFile<C>,
) -> Option<bool> {
    let copy = file.copy_in(alloc);
    let same = match &copy {
        Ok(copy) => sameness(copy, other),
        Err(_) => None,
    };
    drop(copy);
    same
}

/// Whether two texts are read as the same file, the second into some memory, or None if one is not read.
pub fn are_same_file<A: Allocator + Clone>(
    alloc: Global,
    left: &[u8],
    memory: A,
    right: &[u8],
) -> Option<bool> {
    let file = read(alloc, left);
    let same = match &file {
        Ok(file) => is_read_as(memory, right, file),
        Err(_) => None,
    };
    drop(file);
    same
}

/// Whether two texts are read as the same file, or None if one is not read.
pub fn same_file(alloc: Global, left: &[u8], right: &[u8]) -> Option<bool> {
    are_same_file(alloc, left, alloc, right)
}

/// Whether the file of a text is the same as its copy in some memory; None if one of them cannot be made.
pub fn is_copied<A: Allocator + Clone>(alloc: Global, text: &[u8], memory: A) -> Option<bool> {
    let file = read(alloc, text);
    let same = match &file {
        Ok(file) => is_copied_as(file, memory, file),
        Err(_) => None,
    };
    drop(file);
    same
}
