//! Instructions.
ghost use Rattle.std.specs.Prelude.{◌≤◌, ◌<◌, [], ◌∷◌, map};
ghost use Rattle.sml_tree.specs.Form.{Arm, Block as Block'};
ghost use Rattle.sml_tree.specs.Form.{Else};
ghost use Rattle.sml_tree.specs.Content.{cond_content, instr_content};
ghost use Rattle.sml_tree.specs.declared.token_kind.TokenKind.TheVariants as kinds;
ghost use Rattle.sml_read_parts.specs.Reads.{Reads, ReadsNext, ReadsFront, SeesKind};
ghost use Rattle.sml_read.specs.Arms.{arms_content, arms_of, ReadsAskedFor};
ghost use Rattle.sml_read_parts.specs.Stands.{ClosesAs};
ghost use Rattle.sml_tree.specs.declared.limits.TheConstants.{MAX_IFS};

use crate::arms::{Arms, chosen};
use crate::condition::condition;
use sml_read_parts::{Reader, Stop, appended, as_some, empty_block, empty_list};
use sml_tree::{Block, Cond, Instr, MAX_IFS, TokenKind};
use std::alloc::Allocator;

/// Reads the condition of an `if`, in its brackets.
fn asked_for<A: Allocator + Clone>(reader: &mut Reader<'_>, alloc: &A) -> Result<Cond<A>, Stop>
    ensures { ReadsAskedFor cond_content reader.old reader.new result }
{
    reader.sign(TokenKind::OpenBracket)?;
    let mut tests = 0;
    let cond = condition(reader, alloc, 0, &mut tests);
    reader.ended(TokenKind::CloseBracket, cond)
}

/// Returns the two blocks of an `if`, if the second was read and the last word is behind it.
fn arms_ended<A: Allocator + Clone>(
    reader: &mut Reader<'_>,
    yes: Block<A>,
    no: Result<Block<A>, Stop>,
) -> Result<Arms<A>, Stop>
    ensures { ClosesAs kinds.Endif reader.old reader.new (arms_of yes) no result }
{
    match no {
        Ok(no) => reader.closed(TokenKind::Endif, Arms { yes, no }),
        Err(stop) => Err(stop),
    }
}

/// Reads the next instruction of a block inside `depth` `if`s, if there is one.
#[cycle(instructions)]
fn instr<A: Allocator + Clone>(
    reader: &mut Reader<'_>,
    alloc: &A,
    depth: u32,
) -> Result<Option<Instr<A>>, Stop>
    requires { depth ≤ MAX_IFS }
    ensures { ReadsNext (Block' depth) (Block' depth) (λ i v. instr_content i ∷ v) [] reader.old reader.new result }
{
    if reader.stands(TokenKind::If) {
        return as_some(choice(reader, alloc, depth));
    }
    reader.plain(alloc, depth)
}

/// Reads an `if`, whose word is in front.
#[cycle(instructions)]
fn choice<A: Allocator + Clone>(
    reader: &mut Reader<'_>,
    alloc: &A,
    depth: u32,
) -> Result<Instr<A>, Stop>
    requires at_if { SeesKind kinds.If reader.old }
    requires depth { depth ≤ MAX_IFS }
    ensures { ReadsFront (Block' depth) (Block' depth) (λ i v. instr_content i ∷ v) reader.old reader.new result }
{
    reader.deeper(depth, MAX_IFS)?;
    let cond = asked_for(reader, alloc)?;
    let arms = arms(reader, alloc, depth);
    chosen(cond, arms)
}

/// Reads the two blocks of an `if`.
#[cycle(instructions)]
fn arms<A: Allocator + Clone>(
    reader: &mut Reader<'_>,
    alloc: &A,
    depth: u32,
) -> Result<Arms<A>, Stop>
    requires { depth < MAX_IFS }
    ensures { Reads (Arm depth) arms_content reader.old reader.new result }
{
    reader.sign(TokenKind::Then)?;
    let yes = block(reader, alloc, depth + 1)?;
    let no = otherwise(reader, alloc, depth + 1);
    arms_ended(reader, yes, no)
}

/// Reads the second block of an `if`, which may be left out.
#[cycle(instructions)]
fn otherwise<A: Allocator + Clone>(
    reader: &mut Reader<'_>,
    alloc: &A,
    depth: u32,
) -> Result<Block<A>, Stop>
    requires { depth ≤ MAX_IFS }
    ensures { Reads (Else depth) (λ b. map instr_content b.instrs.items) reader.old reader.new result }
{
    if !reader.skip(TokenKind::Else) {
        return empty_block(alloc);
    }
    block(reader, alloc, depth)
}

/// Reads the instructions of a block inside `depth` `if`s.
#[cycle(instructions)]
pub fn block<A: Allocator + Clone>(
    reader: &mut Reader<'_>,
    alloc: &A,
    depth: u32,
) -> Result<Block<A>, Stop>
    requires { depth ≤ MAX_IFS }
    ensures { Reads (Block' depth) (λ b. map instr_content b.instrs.items) reader.old reader.new result }
{
    let mut instrs = empty_list(alloc)?;
    'more: while let Some(instr) = instr(reader, alloc, depth)? {
        instrs = appended(instrs, Ok(instr))?;
    }
    Ok(Block { instrs })
}
