//! Where the lines of a text begin.

use explain_places::Position;
use std::alloc::{AllocError, Global};

/// Where the lines of a text begin, so that many places of it are found without going through it for each.
#[derive(Drop)]
pub struct Lines {
    begins: Vec<usize>,
}

impl Lines {
    /// The lines of a text. The cost is its length, and the memory the count of its lines. The error is out of memory.
    pub fn of(alloc: Global, text: &[u8]) -> Result<Lines, AllocError> {
        let mut begins = Vec::new(alloc);
        begins.push(0)?;
        for (at, byte) in text.iter().enumerate() {
            if *byte == b'\n' {
                begins.push(at.saturating_add(1))?;
            }
        }
        Ok(Lines { begins })
    }

    /// The place of a byte, counted from 0. The cost is the logarithm of the count of lines.
    pub fn place(&self, at: usize) -> Position {
        let line = self.begins.partition_point(|begin| *begin <= at);
        let begin = match self.begins.get(line.saturating_sub(1)) {
            Some(begin) => *begin,
            None => 0,
        };
        Position {
            line,
            column: at.saturating_sub(begin).saturating_add(1),
        }
    }
}
