//! The places of blocks to which actions come.
ghost use Rattle.std.specs.Prelude.{◌≡◌, ◌<◌, ◌↔◌, ℕ, All, IfOk, IsTrue, length};
ghost use Rattle.sml_domain.specs.Places.{NamesBefore};
ghost use Rattle.sml_domain.specs.Trees.{instruction};
ghost use Rattle.smi_reach.specs.Found.{HasBlocks, IsBlockOf};
ghost use Rattle.smi_reach.specs.Places.{is_instr_passed};
ghost use Rattle.smi_reach.specs.Reach.{
  ArePassedCounts,
  BeginsBlocks,
  IsActionBlock,
  IsBlockBegun,
  IsBlockAmong,
  IsBlockWithin,
  IsBranchFrom,
  IsBranchOf,
  IsPassedCount,
  IsReachOf,
  ReachesPlace,
};
ghost use Rattle.smi_reach.specs.Ways.{AreWays};

use crate::ways::Way;
use sml_domain::{BlockId, Class, Domain, Instr, State};
use std::alloc::{AllocError, Global};

/// The places of the blocks of a domain to which actions come.
#[derive(Drop)]
pub struct Reach {
    /// Of each block, how many of its first instructions an action passes that begins it.
    pub passed: Vec<usize>,
    /// Of each block, whether an action begins it.
    pub begun: Vec<bool>,
}

impl Reach {
    /// Whether an action comes to a place of a block: to one of its instructions, or to its end. The cost is constant.
    pub fn reaches(&self, block: BlockId, place: usize) -> bool
        requires begun { block < length self.now.begun.items }
        requires passed { block < length self.now.passed.items }
        ensures { IsTrue result ↔ ReachesPlace self.now block place }
    {
        self.begun[block.get()] && place <= self.passed[block.get()]
    }
}

// Whether an action may come behind an instruction. The ways of the blocks that it names are known.
fn is_passed(domain: &Domain, ways: &[Way], instr: &Instr) -> bool
    requires known { AreWays domain.now ways.now }
    requires names { NamesBefore (length ways.now) (instruction instr.now) }
    ensures { result ≡ is_instr_passed domain.now (instruction instr.now) }
{
    let _domain = domain;
    match instr {
        Instr::MoveTo(_) | Instr::Terminate(_) => false,
        Instr::If { yes, no, .. } => {
            ways[yes.get()].falls_through || ways[no.get()].falls_through
        }
        _ => true,
    }
}

// How many of its first instructions an action passes that begins a block.
fn passed_in(domain: &Domain, ways: &[Way], block: BlockId) -> usize
    requires known { AreWays domain.now ways.now }
    requires count { length ways.now ≡ length domain.now.blocks }
    requires block { block < length domain.now.blocks }
    ensures { IsPassedCount domain.now block result }
{
    let count = domain.instructions(block).len();
    // A domain is sound: blocks name those before them.
    let _objects = domain.objects();
    for place in 0..count {
        let Some(instr) = domain.instruction(block, place) else {
            unreachable!();
        };
        if !is_passed(domain, ways, instr) {
            return place;
        }
    }
    count
}

// How many of its first instructions an action passes that begins a block, for each block.
fn all_passed(alloc: Global, domain: &Domain, ways: &[Way]) -> Result<Vec<usize>, AllocError>
    requires known { AreWays domain.now ways.now }
    requires count { length ways.now ≡ length domain.now.blocks }
    ensures counts { IfOk result (λ passed. ArePassedCounts domain.now passed.items) }
    ensures all { IfOk result (λ passed. length passed.items ≡ length domain.now.blocks) }
{
    let mut passed = Vec::new(alloc);
    for block in 0..domain.blocks().len() {
        passed.push(passed_in(domain, ways, BlockId::new(block)))?;
    }
    Ok(passed)
}

// For each of this many blocks, that no action begins it.
fn none_begun(alloc: Global, count: usize) -> Result<Vec<bool>, AllocError>
    ensures none { IfOk result (λ begun. (b : ℕ) → IsBlockBegun begun.items b → ⊥) }
    ensures count { IfOk result (λ begun. length begun.items ≡ count) }
{
    let mut begun = Vec::new(alloc);
    for _ in 0..count {
        begun.push(false)?;
    }
    Ok(begun)
}

// BeginsBlocks the blocks of the actions that a state declares.
fn begin_actions(begun: &mut Vec<bool>, row: &State)
    requires { All (IsBlockOf (length begun.old.items)) row.now.actions }
    ensures { BeginsBlocks (IsBlockAmong row.now.actions) begun.old.items begun.new.items }
{
    for action in row.actions.rows() {
        begun[action.block.get()] = true;
    }
}

// BeginsBlocks the blocks of the actions of a class.
fn begin_states(begun: &mut Vec<bool>, class: &Class)
    requires { All (HasBlocks (length begun.old.items)) class.now.states }
    ensures { BeginsBlocks (IsBlockWithin class.now.states) begun.old.items begun.new.items }
{
    for row in class.states.rows() {
        begin_actions(begun, row);
    }
}

// BeginsBlocks the blocks of all actions.
fn begin_classes(begun: &mut Vec<bool>, domain: &Domain)
    requires { length begun.old.items ≡ length domain.now.blocks }
    ensures { BeginsBlocks (IsActionBlock domain.now) begun.old.items begun.new.items }
{
    // A domain is sound: the blocks of its classes are there.
    let _objects = domain.objects();
    for class in domain.classes() {
        begin_states(begun, class);
    }
}

// BeginsBlocks the branches of an instruction, if it is an `if`.
fn begin_branches(begun: &mut Vec<bool>, instr: &Instr)
    requires { NamesBefore (length begun.old.items) (instruction instr.now) }
    ensures { BeginsBlocks (IsBranchOf (instruction instr.now)) begun.old.items begun.new.items }
{
    if let Instr::If { yes, no, .. } = instr {
        begun[yes.get()] = true;
        begun[no.get()] = true;
    }
}

// BeginsBlocks the branches of the `if`s of a block to which an action comes that begins it.
fn begin_within(begun: &mut Vec<bool>, domain: &Domain, block: BlockId, passed: usize)
    requires count { length begun.old.items ≡ length domain.now.blocks }
    requires block { block < length domain.now.blocks }
    ensures { BeginsBlocks (IsBranchFrom domain.now block passed) begun.old.items begun.new.items }
{
    let count = domain.instructions(block).len();
    // A domain is sound: blocks name those before them.
    let _objects = domain.objects();
    for place in 0..count {
        if place > passed {
            return;
        }
        let Some(instr) = domain.instruction(block, place) else {
            unreachable!();
        };
        begin_branches(begun, instr);
    }
}

/// The places of the blocks of a domain to which actions come.
///
/// The ways are those of its blocks (`ways_of`). The time grows with the instructions, and the memory with the count of
/// the blocks. The error is out of memory.
pub fn reach_of(alloc: Global, domain: &Domain, ways: &[Way]) -> Result<Reach, AllocError>
    requires known { AreWays domain.now ways.now }
    requires count { length ways.now ≡ length domain.now.blocks }
    ensures { IfOk result (IsReachOf domain.now) }
{
    let passed = all_passed(alloc, domain, ways)?;
    let count = passed.len();
    let mut begun = none_begun(alloc, count)?;
    begin_classes(&mut begun, domain);
    // A domain is sound: blocks name those before them. So each is begun before it is looked at.
    let _objects = domain.objects();
    for looked_at in 0..count {
        let block = count - 1 - looked_at;
        if begun[block] {
            begin_within(&mut begun, domain, BlockId::new(block), passed[block]);
        }
    }
    Ok(Reach { passed, begun })
}
