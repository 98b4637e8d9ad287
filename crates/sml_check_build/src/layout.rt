//! Nested blocks, laid out as numbered ones.
ghost use Rattle.std.specs.Prelude.{◌≡◌, ◌++◌, ◌+◌, true, is_some, length, IfOk, OnOk, map};
ghost use Rattle.sml_tree.specs.Syntax.{SendData};
ghost use Rattle.sml_tree.specs.Content.{class_content, action_content, arg_content, passed_content, instr_content, block_content};
ghost use Rattle.sml_domain.specs.Program.{Assigns};
ghost use Rattle.sml_domain.specs.Trees as trees;
ghost use Rattle.sml_check_build.specs.Numbers.{place, place_or};
ghost use Rattle.sml_check_build.specs.Programs as says;
ghost use Rattle.sml_check_build.specs.Layout as laid;
ghost use Rattle.sml_check_build.specs.Placed.{ValuePlaced, TargetPlaced, RequestPlaced, InstrPlaced, BlockPlaced};
ghost use Rattle.sml_check_build.specs.Grown.{send_data};

use crate::blocks::Blocks;
use crate::condition::condition;
use crate::names::Names;
use crate::values::{arguments, operand, own_param};
use crate::waits::waits;
use sml_domain::{BlockId, Instr, Target};
use sml_tree::{Action, Arg, Block, Class, Name, Passed};
use std::alloc::{AllocError, Allocator, Global};

/// What the names of a block mean: the names of the file, and the parameters of its class and action.
#[derive(Drop)]
pub struct Scope<'a, A: Allocator + Clone> {
    pub names: &'a Names,
    pub class: &'a Class<A>,
    pub action: &'a Action<A>,
}

// Whom a request is for.
fn target(names: &Names, all: bool, name: &Name) -> Target
    requires { TargetPlaced names.now all name.now }
    ensures { trees.target result ≡ says.target_numbered names.now all name.now }
{
    if all {
        Target::Members(names.group(name))
    } else {
        Target::One(names.object(name))
    }
}

impl<'a, A: Allocator + Clone> Scope<'a, A> {
    // Makes a request. If no class declares its action, it is a request to a set without members.
    fn request(
        &self,
        alloc: Global,
        action: &Name,
        args: &Vec<Passed<A>, A>,
        all: bool,
        to: &Name,
    ) -> Result<Instr, AllocError>
        requires { RequestPlaced self.now.names.now (class_content self.now.class.now)
            (action_content self.now.action.now) (send_data action.now (map passed_content args.now.items) all to.now)
            (place self.now.names.now.actions action.now) }
        ensures { IfOk result (λ i. trees.instruction i ≡ laid.request_laid self.now.names.now
            (class_content self.now.class.now) (action_content self.now.action.now)
            (send_data action.now (map passed_content args.now.items) all to.now)
            (place self.now.names.now.actions action.now)) }
    {
        match self.names.action(action) {
            Some(number) => Ok(Instr::Send {
                target: target(self.names, all, to),
                action: number,
                args: arguments(alloc, self.class, self.action, args)?,
            }),
            None => Ok(Instr::SendNone {
                set: self.names.group(to),
            }),
        }
    }

    // Returns a parameter that is set.
    fn assignment(&self, alloc: Global, param: &Name, value: &Arg<A>) -> Result<Instr, AllocError>
        requires param { is_some (says.class_place (class_content self.now.class.now) param.now) ≡ true }
        requires value { ValuePlaced (class_content self.now.class.now) (action_content self.now.action.now)
            (arg_content value.now) }
        ensures { IfOk result (λ i. trees.instruction i
            ≡ Assigns (place_or (says.class_place (class_content self.now.class.now) param.now))
            (says.operand_numbered (class_content self.now.class.now) (action_content self.now.action.now)
            (arg_content value.now))) }
    {
        Ok(Instr::Set {
            param: own_param(self.class, param),
            value: operand(alloc, self.class, self.action, value)?,
        })
    }

    // Returns an instruction, with the blocks that it holds laid out.
    #[cycle(layout)]
    #[tactic(auto, using(crate::proofs::Said::layouts))]
    fn instr(
        &self,
        alloc: Global,
        blocks: &mut Blocks,
        instr: &sml_tree::Instr<A>,
    ) -> Result<Instr, AllocError>
        requires { InstrPlaced self.now.names.now (class_content self.now.class.now)
            (action_content self.now.action.now) (instr_content instr.now) }
        ensures is { IfOk result (λ i. trees.instruction i ≡ laid.instr_laid self.now.names.now
            (class_content self.now.class.now) (action_content self.now.action.now) (length blocks.old)
            (instr_content instr.now)) }
        ensures blocks { OnOk result (blocks.new ≡ blocks.old ++ laid.held_blocks self.now.names.now
            (class_content self.now.class.now) (action_content self.now.action.now) (length blocks.old)
            (instr_content instr.now)) }
    {
        match instr {
            sml_tree::Instr::Do {
                action,
                args,
                all,
                target,
            } => self.request(alloc, action, args, *all, target),
            sml_tree::Instr::If { cond, yes, no } => {
                let yes = self.block(alloc, blocks, yes)?;
                let no = self.block(alloc, blocks, no)?;
                let cond = condition(alloc, self.names, cond)?;
                Ok(Instr::If { cond, yes, no })
            }
            sml_tree::Instr::Set { param, value } => self.assignment(alloc, param, value),
            sml_tree::Instr::MoveTo(state) => Ok(Instr::MoveTo(self.names.state(state))),
            sml_tree::Instr::Terminate(state) => Ok(Instr::Terminate(self.names.state(state))),
            sml_tree::Instr::Wait(waited) => { Ok(Instr::Wait(waits(alloc, self.names, waited)?)) }
            sml_tree::Instr::Insert { member, set } => Ok(Instr::Insert {
                member: self.names.object(member),
                set: self.names.group(set),
            }),
            sml_tree::Instr::Remove { member, set } => Ok(Instr::Remove {
                member: self.names.object(member),
                set: self.names.group(set),
            }),
        }
    }

    /// Lays a block out behind the blocks that it holds, and returns its number.
    #[cycle(layout)]
    pub fn block(
        &self,
        alloc: Global,
        blocks: &mut Blocks,
        block: &Block<A>,
    ) -> Result<BlockId, AllocError>
        requires { BlockPlaced self.now.names.now (class_content self.now.class.now)
            (action_content self.now.action.now) (block_content block.now) }
        ensures is { IfOk result (λ k. k ≡ length blocks.old + laid.held_in (block_content block.now)) }
        ensures blocks { OnOk result (blocks.new ≡ blocks.old ++ laid.blocks_laid self.now.names.now
            (class_content self.now.class.now) (action_content self.now.action.now) (length blocks.old)
            (block_content block.now)) }
    {
        let mut instrs = Vec::new(alloc);
        for instr in &block.instrs {
            instrs.push(self.instr(alloc, blocks, instr)?)?;
        }
        blocks.put(instrs)
    }
}
