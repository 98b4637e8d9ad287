//! Where the instructions of blocks stand in the text.

use explain_landmarks::{ActionMarks, Landmarks};
use sml_domain::{BlockId, Class, Domain, Instr};
use std::alloc::{AllocError, Global};

/// Whose block it is: the places of the class among the classes, of the state in the class, and of the action in the
/// state.
#[derive(Clone, Copy)]
pub(crate) struct Owner {
    pub class: usize,
    pub state: usize,
    pub action: usize,
}

/// A block: whose it is, and where its instructions stand in the text.
#[derive(Drop)]
pub(crate) struct Site {
    pub owner: Owner,
    pub instructions: Vec<usize>,
}

/// The sites of all blocks, by their numbers. The time and the memory grow with the count of instructions. The error is
/// out of memory.
pub(crate) fn sites_of(
    alloc: Global,
    domain: &Domain,
    marks: &Landmarks,
) -> Result<Vec<Site>, AllocError> {
    let mut sites = Vec::new(alloc);
    for _ in domain.blocks() {
        sites.push(Site {
            owner: Owner {
                class: 0,
                state: 0,
                action: 0,
            },
            instructions: Vec::new(alloc),
        })?;
    }
    for (place, class) in domain.classes().iter().enumerate() {
        lay_class(alloc, domain, class, place, marks, &mut sites)?;
    }
    Ok(sites)
}

// Lays the blocks of a class.
fn lay_class(
    alloc: Global,
    domain: &Domain,
    class: &Class,
    place: usize,
    marks: &Landmarks,
    sites: &mut Vec<Site>,
) -> Result<(), AllocError> {
    for (state, row) in class.states.rows().iter().enumerate() {
        for (action, item) in row.actions.rows().iter().enumerate() {
            let owner = Owner {
                class: place,
                state,
                action,
            };
            if let Some(marked) = marks.action(place, state, action) {
                lay_action(alloc, domain, item.block, owner, marked, sites)?;
            }
        }
    }
    Ok(())
}

// Lays the blocks of an action: its instructions stand in the text in the order in which they are gone through here.
fn lay_action(
    alloc: Global,
    domain: &Domain,
    block: BlockId,
    owner: Owner,
    marked: &ActionMarks,
    sites: &mut Vec<Site>,
) -> Result<(), AllocError> {
    let mut left = Vec::new(alloc);
    left.push((block, 0usize))?;
    let mut passed: usize = 0;
    // Each instruction puts three places in front at most.
    for _ in 0..marked
        .instructions
        .len()
        .saturating_mul(3)
        .saturating_add(1)
    {
        let Some((number, place)) = left.pop() else {
            return Ok(());
        };
        let (Some(site), Some(instr)) = (
            sites.get_mut(number.get()),
            domain.instruction(number, place),
        ) else {
            continue;
        };
        site.owner = owner;
        if let Some(at) = marked.instructions.get(passed) {
            site.instructions.push(*at)?;
        }
        passed = passed.saturating_add(1);
        left.push((number, place.saturating_add(1)))?;
        if let Instr::If { yes, no, .. } = instr {
            left.push((*no, 0))?;
            left.push((*yes, 0))?;
        }
    }
    Ok(())
}
