//! How blocks end.
ghost use Rattle.std.specs.Prelude.{◌≡◌, ◌∷◌, [], IfOk, OnOk, false, length};
ghost use Rattle.sml_domain.specs.Lookups.{tree_of_block};
ghost use Rattle.sml_domain.specs.Places.{NamesBefore};
ghost use Rattle.sml_domain.specs.Trees.{instruction};
ghost use Rattle.smi_reach.specs.Ways.{AreWays, IsWayOf, TakesBranches, TakesInstr};

use sml_domain::{BlockId, Domain, Instr, StateId};
use std::alloc::{AllocError, Global};

/// How a block ends: whether some way through it comes to its end, and the states in which the others end, some perhaps
/// more than once.
#[derive(Drop)]
pub struct Way {
    pub falls_through: bool,
    pub ends: Vec<StateId>,
}

// The way through an `if` and what follows it, where these are the ways of its branches and the way of what follows.
fn take_branches(way: &mut Way, taken: &Way, other: &Way) -> Result<(), AllocError>
    ensures { OnOk result (TakesBranches taken.now other.now way.old way.new) }
{
    if !taken.falls_through && !other.falls_through {
        way.falls_through = false;
        way.ends.clear();
    }
    way.ends.extend_from_slice(&taken.ends)?;
    way.ends.extend_from_slice(&other.ends)?;
    Ok(())
}

// The way of an action that ends in a state.
fn end_in(way: &mut Way, state: StateId) -> Result<(), AllocError>
    ensures { OnOk result ((way.new.falls_through ≡ false) × (way.new.ends.items ≡ state ∷ [])) }
{
    way.falls_through = false;
    way.ends.clear();
    way.ends.push(state)?;
    Ok(())
}

// Puts an instruction in front of what a way is of. The ways of the blocks that it names are before.
fn take_instr(way: &mut Way, instr: &Instr, before: &[Way]) -> Result<(), AllocError>
    requires { NamesBefore (length before.now) (instruction instr.now) }
    ensures { OnOk result (TakesInstr before.now way.old way.new (instruction instr.now)) }
{
    match instr {
        Instr::MoveTo(state) | Instr::Terminate(state) => end_in(way, *state),
        Instr::If { yes, no, .. } => take_branches(way, &before[yes.get()], &before[no.get()]),
        _ => Ok(()),
    }
}

// The way of a block, of which those before it are known.
fn way_of(alloc: Global, domain: &Domain, block: BlockId, before: &[Way]) -> Result<Way, AllocError>
    requires known { AreWays domain.now before.now }
    requires count { length before.now ≡ block }
    ensures { IfOk result (IsWayOf (tree_of_block domain.now block)) }
{
    let count = domain.instructions(block).len();
    // A domain is sound: blocks name those before them.
    let _objects = domain.objects();
    let mut way = Way {
        falls_through: true,
        ends: Vec::new(alloc),
    };
    for passed in 0..count {
        let Some(instr) = domain.instruction(block, count - 1 - passed) else {
            unreachable!();
        };
        take_instr(&mut way, instr, before)?;
    }
    Ok(way)
}

/// The ways of all blocks of a domain, by their numbers. The time and the memory grow with the instructions, and
/// with how
/// deep `if`s stand within one another.
pub fn ways_of(alloc: Global, domain: &Domain) -> Result<Vec<Way>, AllocError>
    ensures known { IfOk result (λ ways. AreWays domain.now ways.items) }
    ensures count { IfOk result (λ ways. length ways.items ≡ length domain.now.blocks) }
{
    let mut ways = Vec::new(alloc);
    for block in 0..domain.blocks().len() {
        let way = way_of(alloc, domain, BlockId::new(block), &ways)?;
        ways.push(way)?;
    }
    Ok(ways)
}
