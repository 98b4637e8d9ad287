//! Lists, instructions and conditions from their parts.
ghost use Rattle.std.specs.Prelude.{◌≡◌, ◌+◌, [], ◌∷◌, ◌++◌, map, vec_len};
ghost use Rattle.sml_tree.specs.Syntax as said;
ghost use Rattle.sml_tree.specs.Content.{literal_content, arg_content, passed_content, waited_content, cond_content, instr_content};
ghost use Rattle.sml_read_parts.specs.Made.{OrMemory, MadeOf, OfRead, found_of};

use crate::fault::Stop;
use sml_tree::{Arg, Block, Cond, Instr, Literal, Name, Passed, Scope, Waited};
use std::alloc::Allocator;

/// Makes an empty list.
pub fn empty_list<T, A: Allocator + Clone>(alloc: &A) -> Result<Vec<T, A>, Stop>
    ensures items { OrMemory result (λ v. v.items ≡ []) }
    ensures len { OrMemory result (λ v. vec_len v ≡ 0) }
{
    Ok(Vec::new(alloc.clone()?))
}

/// Makes a list of one thing.
pub fn one_item<T: Drop, A: Allocator + Clone>(alloc: &A, item: T) -> Result<Vec<T, A>, Stop>
    ensures items { OrMemory result (λ v. v.items ≡ item ∷ []) }
    ensures len { OrMemory result (λ v. vec_len v ≡ 1) }
{
    let mut items = Vec::new(alloc.clone()?);
    items.push(item)?;
    Ok(items)
}

/// Adds one thing to a list, if it was read. So a caller holds no list when the reading of a thing fails.
pub fn appended<T: Drop, A: Allocator + Clone>(
    mut items: Vec<T, A>,
    item: Result<T, Stop>,
) -> Result<Vec<T, A>, Stop>
    ensures items { MadeOf item result (λ x v. v.items ≡ items.items ++ x ∷ []) }
    ensures len { MadeOf item result (λ x v. vec_len v ≡ vec_len items + 1) }
{
    match item {
        Ok(item) => {
            items.push(item)?;
            Ok(items)
        }
        Err(stop) => Err(stop),
    }
}

/// What was read, as something that may be missing.
pub fn as_some<T: Drop>(read: Result<T, Stop>) -> Result<Option<T>, Stop>
    ensures { result ≡ found_of read }
{
    match read {
        Ok(item) => Ok(Some(item)),
        Err(stop) => Err(stop),
    }
}

/// Returns a string that is written out.
pub fn string_literal<A: Allocator + Clone>(alloc: &A, bytes: &[u8]) -> Result<Literal<A>, Stop>
    ensures { OrMemory result (λ value. literal_content value ≡ said.str bytes.now) }
{
    Ok(Literal::Str(Vec::from_slice(alloc.clone()?, bytes)?))
}

/// Returns a value that was written out, as what is passed or set.
pub fn literal_arg<A: Allocator + Clone>(read: Result<Literal<A>, Stop>) -> Result<Arg<A>, Stop>
    ensures { OfRead read result (λ value arg. arg_content arg ≡ said.lit (literal_content value)) }
{
    match read {
        Ok(value) => Ok(Arg::Lit(value)),
        Err(stop) => Err(stop),
    }
}

/// Makes an empty block.
pub fn empty_block<A: Allocator + Clone>(alloc: &A) -> Result<Block<A>, Stop>
    ensures { OrMemory result (λ b. b.instrs.items ≡ []) }
{
    Ok(Block {
        instrs: empty_list(alloc)?,
    })
}

/// Returns a `do`.
pub fn send<A: Allocator + Clone>(
    action: Name,
    args: Vec<Passed<A>, A>,
    all: bool,
    target: Name,
) -> Instr<A>
    ensures { instr_content result ≡ said.send (record {
      action = action;
      args = map passed_content args.items;
      all =
          all;
      target = target;
    }) }
{
    Instr::Do {
        action,
        args,
        all,
        target,
    }
}

/// Returns a `set`.
pub fn set<A: Allocator + Clone>(param: Name, value: Arg<A>) -> Instr<A>
    ensures { instr_content result ≡ said.assign param (arg_content value) }
{
    Instr::Set { param, value }
}

/// Returns a `move_to`.
pub fn move_to<A: Allocator + Clone>(state: Name) -> Instr<A>
    ensures { instr_content result ≡ said.move_to state }
{
    Instr::MoveTo(state)
}

/// Returns a `terminate_action`.
pub fn terminate<A: Allocator + Clone>(state: Name) -> Instr<A>
    ensures { instr_content result ≡ said.terminate state }
{
    Instr::Terminate(state)
}

/// Returns a `wait`.
pub fn wait<A: Allocator + Clone>(waited: Vec<Waited, A>) -> Instr<A>
    ensures { instr_content result ≡ said.wait_for (map waited_content waited.items) }
{
    Instr::Wait(waited)
}

/// Returns an `insert`.
pub fn insert<A: Allocator + Clone>(member: Name, set: Name) -> Instr<A>
    ensures { instr_content result ≡ said.insert_in member set }
{
    Instr::Insert { member, set }
}

/// Returns a `remove`.
pub fn remove<A: Allocator + Clone>(member: Name, set: Name) -> Instr<A>
    ensures { instr_content result ≡ said.remove_from member set }
{
    Instr::Remove { member, set }
}

/// Two conditions, each in a box.
#[derive(Drop)]
struct Pair<A: Allocator + Clone> {
    left: Box<Cond<A>, A>,
    right: Box<Cond<A>, A>,
}

/// Puts a condition into a box. No other value is held while memory may run out.
fn kept<A: Allocator + Clone>(alloc: &A, cond: Cond<A>) -> Result<Box<Cond<A>, A>, Stop>
    ensures { OrMemory result (λ b. cond_content b.value ≡ cond_content cond) }
{
    Ok(Box::new(alloc.clone()?, cond)?)
}

/// Puts two conditions into boxes.
fn boxed<A: Allocator + Clone>(alloc: &A, left: Cond<A>, right: Cond<A>) -> Result<Pair<A>, Stop>
    ensures { OrMemory result (λ pair. (cond_content pair.left.value ≡ cond_content left)
        × (cond_content pair.right.value ≡ cond_content right)) }
{
    let left = kept(alloc, left)?;
    let right = kept(alloc, right)?;
    Ok(Pair { left, right })
}

/// Makes the `and` of two conditions, if the second was read.
pub fn and_of<A: Allocator + Clone>(
    alloc: &A,
    left: Cond<A>,
    right: Result<Cond<A>, Stop>,
) -> Result<Cond<A>, Stop>
    ensures { MadeOf right result (λ x c. cond_content c ≡ said.both (cond_content left) (cond_content x)) }
{
    match right {
        Ok(right) => {
            let pair = boxed(alloc, left, right)?;
            Ok(Cond::And(pair.left, pair.right))
        }
        Err(stop) => Err(stop),
    }
}

/// Makes the `or` of two conditions, if the second was read.
pub fn or_of<A: Allocator + Clone>(
    alloc: &A,
    left: Cond<A>,
    right: Result<Cond<A>, Stop>,
) -> Result<Cond<A>, Stop>
    ensures { MadeOf right result (λ x c. cond_content c ≡ said.either (cond_content left) (cond_content x)) }
{
    match right {
        Ok(right) => {
            let pair = boxed(alloc, left, right)?;
            Ok(Cond::Or(pair.left, pair.right))
        }
        Err(stop) => Err(stop),
    }
}

/// Makes the `not` of a condition, if that was read.
pub fn not_of<A: Allocator + Clone>(
    alloc: &A,
    inner: Result<Cond<A>, Stop>,
) -> Result<Cond<A>, Stop>
    ensures { MadeOf inner result (λ x c. cond_content c ≡ said.neither (cond_content x)) }
{
    match inner {
        Ok(inner) => Ok(Cond::Not(kept(alloc, inner)?)),
        Err(stop) => Err(stop),
    }
}

/// Returns a test.
pub fn test<A: Allocator + Clone>(
    scope: Scope,
    name: Name,
    negated: bool,
    states: Vec<Name, A>,
) -> Cond<A>
    ensures { cond_content result ≡ said.test (record {
      scope = scope;
      name = name;
      negated = negated;
      states =
          states.items;
    }) }
{
    Cond::Test {
        scope,
        name,
        negated,
        states,
    }
}
