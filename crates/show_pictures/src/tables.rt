//! Tables with a row for each number, as they begin.

use std::alloc::{AllocError, Global};

/// So many times nothing.
pub(crate) fn nones(alloc: Global, count: usize) -> Result<Vec<Option<usize>>, AllocError> {
    let mut table = Vec::new(alloc);
    for _ in 0..count {
        table.push(None)?;
    }
    Ok(table)
}

/// So many zeros.
pub(crate) fn zeros(alloc: Global, count: usize) -> Result<Vec<usize>, AllocError> {
    let mut table = Vec::new(alloc);
    for _ in 0..count {
        table.push(0)?;
    }
    Ok(table)
}

/// So many falses.
pub(crate) fn falses(alloc: Global, count: usize) -> Result<Vec<bool>, AllocError> {
    let mut table = Vec::new(alloc);
    for _ in 0..count {
        table.push(false)?;
    }
    Ok(table)
}
