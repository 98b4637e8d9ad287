//! Copies out of a heap that has no room left.

use crate::tree::EVERY_FORM;
use linked_list_allocator::LocalHeap;
use sml_read::read;
use sml_tree::SmlFile;
use std::alloc::Global;
use std::test::Fail;

const BLOCK: &[u8] = b"0123456789abcdef";

// A block of the least size that a heap allocates.
type Block<'a> = Vec<u8, &'a LocalHeap>;

// Blocks that leave a heap no room for another.
fn filling<'a>(heap: &'a LocalHeap, alloc: Global) -> Vec<Block<'a>> {
    let mut blocks = Vec::new(alloc);
    for _ in 0..1_000_000 {
        let Ok(block) = Vec::from_slice(heap, BLOCK) else {
            break;
        };
        if blocks.push(block).is_err() {
            break;
        }
    }
    blocks
}

fn is_full(heap: &LocalHeap) -> bool {
    Vec::from_slice(heap, BLOCK).is_err()
}

// Whether a file is the same as its copy in other memory.
fn is_copied_out(alloc: Global, file: &SmlFile<&LocalHeap>) -> bool {
    let copy = file.copy_in(alloc);
    let same = match &copy {
        Ok(copy) => copy.same(file) && file.same(copy),
        Err(_) => false,
    };
    drop(copy);
    same
}

// Whether the file of a text is copied out of a heap that is full.
fn is_copied_out_of(heap: &LocalHeap, alloc: Global, text: &[u8]) -> bool {
    let file = read(heap, text);
    let blocks = filling(heap, alloc);
    let copied = match &file {
        Ok(file) => is_full(heap) && is_copied_out(alloc, file),
        Err(_) => false,
    };
    let filled = !blocks.is_empty();
    drop(blocks);
    drop(file);
    copied && filled
}

#[test]
fn copies_out_of_a_full_heap(rt: HostRuntime) -> Result<(), Fail> {
    let heap = LocalHeap::new(rt.alloc(), 65536)?;
    assert!(rt; is_copied_out_of(&heap, rt.alloc(), EVERY_FORM));
    Ok(())
}
