//! The two blocks of an `if`, and an `if` from its parts.
ghost use Rattle.std.specs.Prelude.{◌≡◌};
ghost use Rattle.sml_tree.specs.Syntax as said;
ghost use Rattle.sml_tree.specs.Content.{cond_content, instr_content, block_content};
ghost use Rattle.sml_read_parts.specs.Made.{OfRead};

use sml_read_parts::Stop;
use sml_tree::{Block, Cond, Instr};
use std::alloc::Allocator;

/// The two blocks of an `if`.
#[derive(Drop)]
pub(crate) struct Arms<A: Allocator + Clone> {
    pub yes: Block<A>,
    pub no: Block<A>,
}

/// Makes an `if`.
fn choose<A: Allocator + Clone>(cond: Cond<A>, yes: Block<A>, no: Block<A>) -> Instr<A>
    ensures { instr_content result ≡ said.choose (cond_content cond) (block_content yes) (block_content no) }
{
    Instr::If { cond, yes, no }
}

/// Makes an `if`, if its blocks were read.
pub(crate) fn chosen<A: Allocator + Clone>(
    cond: Cond<A>,
    arms: Result<Arms<A>, Stop>,
) -> Result<Instr<A>, Stop>
    ensures { OfRead arms result (λ a i. instr_content i ≡ said.choose (cond_content cond) (block_content a.yes)
        (block_content a.no)) }
{
    match arms {
        Ok(arms) => Ok(choose(cond, arms.yes, arms.no)),
        Err(stop) => Err(stop),
    }
}
