//! What does not rest.

use smi_core::Core;
use smi_live::{Machine, Manager};
use smirun_live::LiveNotes;
use sml_domain::ObjId;
use std::alloc::{AllocError, Global};

// Whether an object of this name is there, and was not killed.
fn is_alive(core: &Core, name: &[u8]) -> bool {
    for o in 0..core.domain().objects() {
        let o = ObjId::new(o);
        if let Some(object) = core.domain().object_name(o) {
            if object.as_bytes() == name {
                return core.killed_at(o).is_none();
            }
        }
    }
    false
}

// Whether a line of how all stands says what is open or what waits at an object that lives.
fn is_of_restless(core: &Core, line: &[u8]) -> bool {
    if !line.starts_with(b"open ") && !line.starts_with(b"waiting ") {
        return false;
    }
    match line.split(|b| *b == b' ' || *b == b'\n').nth(1) {
        Some(name) => is_alive(core, name),
        None => false,
    }
}

/// The lines of how all stands that say what does not rest. The error is out of memory; so is an answer that has none.
pub(crate) fn restless_lines(
    alloc: Global,
    manager: &mut Manager<LiveNotes<'_>>,
) -> Result<Vec<u8>, AllocError> {
    let mut standing = Vec::new(alloc);
    manager.remark(true, &mut standing);
    let mut lines = Vec::new(alloc);
    for line in standing.split_inclusive(|b| *b == b'\n') {
        if is_of_restless(manager.core(), line) {
            lines.extend_from_slice(line)?;
        }
    }
    Ok(lines)
}
