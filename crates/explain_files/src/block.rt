//! Blocks and conditions, in the order of the text.

use crate::walk::{Walk, Within};
use sml_tree::{Block, Cond, Instr};
use std::alloc::Global;

impl<'w, const MOST: usize> Walk<'w, MOST> {
    /// Goes over the instructions of a block.
    #[cycle(blocks)]
    pub(crate) fn block(&mut self, within: Within<'_>, block: &Block<Global>) {
        for instr in &block.instrs {
            self.instr(within, instr);
        }
    }

    // Goes over an instruction.
    #[cycle(blocks)]
    fn instr(&mut self, within: Within<'_>, instr: &Instr<Global>) {
        match instr {
            Instr::Do {
                action,
                args,
                all,
                target,
            } => self.send(within, action, args, *all, target),
            Instr::If { cond, yes, no } => {
                self.cond(within, cond);
                self.block(within, yes);
                self.block(within, no);
            }
            Instr::Set { param, value } => self.assign(within, param, value),
            Instr::MoveTo(state) | Instr::Terminate(state) => self.end(within, state),
            Instr::Wait(names) => self.waits(within, names),
            Instr::Insert { member, set } | Instr::Remove { member, set } => {
                self.change(member, set)
            }
        }
    }

    // Goes over a condition.
    fn cond(&mut self, within: Within<'_>, cond: &Cond<Global>) {
        match cond {
            Cond::And(left, right) | Cond::Or(left, right) => {
                self.cond(within, left);
                self.cond(within, right);
            }
            Cond::Not(inner) => self.cond(within, inner),
            Cond::Test {
                scope,
                name,
                states,
                ..
            } => self.test(within, *scope, name, states),
        }
    }
}
