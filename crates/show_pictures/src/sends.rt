//! What the actions of a class send and read, and of whom.

use sml_domain::{ActionId, BlockId, Class, Cond, Domain, Instr, ObjId, State, Subject, Target};
use std::alloc::{AllocError, Global};

/// A request that some action sends.
#[derive(Clone, Copy, Eq, Ord, PartialEq, PartialOrd)]
pub(crate) struct Sent {
    /// The number of the object, or, behind those of all objects, that of the set.
    pub(crate) target: usize,
    /// The number of the action.
    pub(crate) action: usize,
}

/// What the actions of a class send, in the order of the targets and then of the actions; if several actions send
/// the same, it is listed several times.
pub(crate) fn sends_of(
    alloc: Global,
    domain: &Domain,
    class: &Class,
) -> Result<Vec<Sent>, AllocError> {
    let blocks = blocks_of(alloc, domain, class)?;
    let mut sends = Vec::new(alloc);
    for block in &blocks {
        add_sends(domain, *block, &mut sends)?;
    }
    sends.sort()?;
    Ok(sends)
}

/// Whom the actions of a class read by `if` and `wait`, in order and by numbers as those of targets; if several read
/// the same, it is listed several times.
pub(crate) fn reads_of(
    alloc: Global,
    domain: &Domain,
    class: &Class,
) -> Result<Vec<usize>, AllocError> {
    let blocks = blocks_of(alloc, domain, class)?;
    let mut reads = Vec::new(alloc);
    for block in &blocks {
        add_reads(domain, *block, &mut reads)?;
    }
    reads.sort()?;
    Ok(reads)
}

/// Whom the actions of a class send to, with all objects that a set may come to have for the set. Some may be listed
/// several times.
pub(crate) fn targets_of(
    alloc: Global,
    domain: &Domain,
    class: &Class,
) -> Result<Vec<ObjId>, AllocError> {
    let sends = sends_of(alloc, domain, class)?;
    let mut targets = Vec::new(alloc);
    let mut last = None;
    for sent in &sends {
        if last != Some(sent.target) {
            add_targets(domain, sent.target, &mut targets)?;
        }
        last = Some(sent.target);
    }
    Ok(targets)
}

// Adds an object, or the objects of a set.
fn add_targets(domain: &Domain, target: usize, targets: &mut Vec<ObjId>) -> Result<(), AllocError> {
    let Some(place) = target.checked_sub(domain.objects()) else {
        targets.push(ObjId::new(target))?;
        return Ok(());
    };
    if let Some(group) = domain.groups().get(place) {
        for member in &group.may {
            targets.push(*member)?;
        }
    }
    Ok(())
}

// The blocks of the actions of a class, with those inside them.
fn blocks_of(alloc: Global, domain: &Domain, class: &Class) -> Result<Vec<BlockId>, AllocError> {
    let mut blocks = outer_blocks(alloc, class)?;
    // Each block has one place, so that no more than all are met.
    for place in 0..domain.blocks().len() {
        let Some(block) = blocks.get(place).copied() else {
            break;
        };
        add_inner(domain, block, &mut blocks)?;
    }
    Ok(blocks)
}

// The blocks of the actions of a class.
fn outer_blocks(alloc: Global, class: &Class) -> Result<Vec<BlockId>, AllocError> {
    let mut blocks = Vec::new(alloc);
    for state in class.states.rows() {
        add_actions(state, &mut blocks)?;
    }
    Ok(blocks)
}

// Adds the blocks of the actions of a state.
fn add_actions(state: &State, blocks: &mut Vec<BlockId>) -> Result<(), AllocError> {
    for action in state.actions.rows() {
        blocks.push(action.block)?;
    }
    Ok(())
}

// Adds the blocks that stand in a block.
fn add_inner(domain: &Domain, block: BlockId, blocks: &mut Vec<BlockId>) -> Result<(), AllocError> {
    for instr in domain.instructions(block) {
        if let Instr::If { yes, no, .. } = instr {
            blocks.push(*yes)?;
            blocks.push(*no)?;
        }
    }
    Ok(())
}

// Adds what the instructions of a block send.
fn add_sends(domain: &Domain, block: BlockId, sends: &mut Vec<Sent>) -> Result<(), AllocError> {
    for instr in domain.instructions(block) {
        if let Instr::Send { target, action, .. } = instr {
            sends.push(sent_to(domain, *target, *action))?;
        }
    }
    Ok(())
}

// Adds whom the instructions of a block read.
fn add_reads(domain: &Domain, block: BlockId, reads: &mut Vec<usize>) -> Result<(), AllocError> {
    for instr in domain.instructions(block) {
        match instr {
            Instr::If { cond, .. } => add_asked(domain, cond, reads)?,
            Instr::Wait(subjects) => add_waited(domain, subjects, reads)?,
            _ => {}
        }
    }
    Ok(())
}

// Adds whom a condition asks.
fn add_asked(domain: &Domain, cond: &Cond, reads: &mut Vec<usize>) -> Result<(), AllocError> {
    match cond {
        Cond::And(left, right) | Cond::Or(left, right) => {
            add_asked(domain, left, reads)?;
            add_asked(domain, right, reads)
        }
        Cond::Not(other) => add_asked(domain, other, reads),
        Cond::Test { asked, .. } => {
            reads.push(number_of(domain, *asked))?;
            Ok(())
        }
    }
}

// Adds for whom a `wait` waits.
fn add_waited(
    domain: &Domain,
    subjects: &[Subject],
    reads: &mut Vec<usize>,
) -> Result<(), AllocError> {
    for subject in subjects {
        reads.push(number_of(domain, *subject))?;
    }
    Ok(())
}

// The number of whom a test asks.
fn number_of(domain: &Domain, subject: Subject) -> usize {
    match subject {
        Subject::One(o) => o.get(),
        Subject::Each(set) | Subject::Any(set) => domain.objects().saturating_add(set.get()),
    }
}

// A request of an action to a target.
fn sent_to(domain: &Domain, target: Target, action: ActionId) -> Sent {
    let target = match target {
        Target::One(o) => o.get(),
        Target::Members(set) => domain.objects().saturating_add(set.get()),
    };
    Sent {
        target,
        action: action.get(),
    }
}
