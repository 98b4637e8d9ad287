//! What a domain declares, and nothing in it comes to.
ghost use Rattle.std.specs.Prelude.{◌≡◌, ◌<◌, Decides, IfOk, length};
ghost use Rattle.smi_reach.specs.Reach.{IsReachOf};
ghost use Rattle.smi_reach.specs.Unreached.{AreUnentered, AreUnreached, IsFirstIn, IsLeft};
ghost use Rattle.smi_reach.specs.Ways.{AreWays};

use crate::places::Reach;
use crate::states::states_of;
use crate::ways::Way;
use sml_domain::{BlockId, Class, ClassId, Domain, State, StateId};
use std::alloc::{AllocError, Global};

/// An instruction to which no action comes, by its block and its place there, counted from 0.
#[derive(Clone, Copy)]
pub struct Unreached {
    pub block: BlockId,
    pub place: usize,
}

// The first instruction of a block to which no action comes, if an action begins the block.
fn first_unreached(domain: &Domain, reach: &Reach, block: BlockId) -> Option<Unreached>
    requires reach { IsReachOf domain.now reach.now }
    requires block { block < length domain.now.blocks }
    ensures { IsFirstIn domain.now block result }
{
    let count = domain.instructions(block).len();
    let passed = reach.passed[block.get()];
    if reach.begun[block.get()] && passed < count && passed + 1 < count {
        return Some(Unreached {
            block,
            place: passed + 1,
        });
    }
    None
}

/// The instructions to which no action comes, of each block that an action begins the first one. The time grows with
/// the count of the blocks. The error is out of memory.
pub fn unreached_of(
    alloc: Global,
    domain: &Domain,
    reach: &Reach,
) -> Result<Vec<Unreached>, AllocError>
    requires { IsReachOf domain.now reach.now }
    ensures { IfOk result (λ list. AreUnreached domain.now list.items) }
{
    let mut list = Vec::new(alloc);
    for block in 0..domain.blocks().len() {
        if let Some(found) = first_unreached(domain, reach, BlockId::new(block)) {
            list.push(found)?;
        }
    }
    Ok(list)
}

// Whether the state of a row is neither among states nor the dead one of its class.
fn is_left(class: &Class, row: &State, states: &[StateId]) -> bool
    ensures { Decides result (IsLeft class.now row.now states.now) }
{
    row.number != class.dead && !states.contains(&row.number)
}

/// The declared states in which no object of a class ever is, in the order of the text; none of a class whose actions
/// devices do. An object that is killed is in the dead state, so that this is not among them.
///
/// The ways are those of the blocks of the domain (`ways_of`). The cost is that of `states_of`. The error is out of
/// memory.
pub fn unentered_of(
    alloc: Global,
    domain: &Domain,
    ways: &[Way],
    number: ClassId,
) -> Result<Vec<StateId>, AllocError>
    requires known { AreWays domain.now ways.now }
    requires count { length ways.now ≡ length domain.now.blocks }
    requires class { number < length domain.now.classes }
    ensures { IfOk result (λ list. AreUnentered domain.now number list.items) }
{
    let mut list = Vec::new(alloc);
    let class = &domain.classes()[number.get()];
    if class.associated {
        return Ok(list);
    }
    let states = states_of(alloc, domain, ways, number)?;
    for row in class.states.rows() {
        if is_left(class, row, &states) {
            list.push(row.number)?;
        }
    }
    Ok(list)
}
