//! The instructions of an action in the order of its text, those within an `if` among them.

use smi_interp::Place;
use sml_domain::{BlockId, Domain, Instr};
use std::alloc::{AllocError, Global};

/// A walk through the instructions of an action: the places of those from which it goes on, the next one last.
#[derive(Drop)]
pub(crate) struct InstructionWalk {
    left: Vec<Place>,
}

impl InstructionWalk {
    // A walk from the beginning of an action's block on.
    pub fn new(
        alloc: Global,
        domain: &Domain,
        block: BlockId,
    ) -> Result<InstructionWalk, AllocError> {
        let mut left = Vec::new(alloc);
        put(&mut left, domain, block, 0)?;
        Ok(InstructionWalk { left })
    }

    // The place of the next instruction, or None behind the last.
    pub fn next(&mut self, domain: &Domain) -> Result<Option<Place>, AllocError> {
        let Some(Place { block, index }) = self.left.pop() else {
            return Ok(None);
        };
        put_behind(&mut self.left, domain, block, index)?;
        Ok(Some(Place { block, index }))
    }
}

// Puts a place in front, if an instruction is there.
fn put(
    left: &mut Vec<Place>,
    domain: &Domain,
    block: BlockId,
    index: usize,
) -> Result<(), AllocError> {
    if domain.instruction(block, index).is_some() {
        left.push(Place { block, index })?;
    }
    Ok(())
}

// Puts what follows an instruction in front: its branches in the order of the text, and what is behind it.
fn put_behind(
    left: &mut Vec<Place>,
    domain: &Domain,
    block: BlockId,
    index: usize,
) -> Result<(), AllocError> {
    put(left, domain, block, index.saturating_add(1))?;
    if let Some(Instr::If { yes, no, .. }) = domain.instruction(block, index) {
        put(left, domain, *no, 0)?;
        put(left, domain, *yes, 0)?;
    }
    Ok(())
}
