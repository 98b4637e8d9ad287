//! Conditions.
ghost use Rattle.std.specs.Prelude.{◌≡◌, ◌≤◌, ◌<◌, OnOk};
ghost use Rattle.sml_tree.specs.Form.{Unit' as Operand, Conj};
ghost use Rattle.sml_tree.specs.Form.{Cond as Cond'};
ghost use Rattle.sml_tree.specs.Content.{cond_content};
ghost use Rattle.sml_tree.specs.declared.token_kind.TokenKind.TheVariants as kinds;
ghost use Rattle.sml_read_parts.specs.Reads.{Reads, SeesKind};
ghost use Rattle.sml_tree.specs.declared.limits.TheConstants.{MAX_OPEN, MAX_TESTS};

use sml_read_parts::{Reader, Stop, and_of, not_of, or_of};
use sml_tree::{Cond, MAX_OPEN, TokenKind};
use std::alloc::Allocator;

/// Reads an operand inside `depth` open `not`s and brackets: a `not`, a bracket or a test.
///
/// A function that may recurse passes on what it read, an error too, so that no condition is held when it returns.
#[cycle(conditions)]
fn operand<A: Allocator + Clone>(
    reader: &mut Reader<'_>,
    alloc: &A,
    depth: u32,
    tests: &mut u32,
) -> Result<Cond<A>, Stop>
    requires depth { depth ≤ MAX_OPEN }
    requires tests { tests.old ≤ MAX_TESTS }
    ensures read { Reads (Operand depth tests.old) (λ c. record {
      formula = cond_content c;
      count =
          tests.new;
    }) reader.old reader.new result }
    ensures room { OnOk result (tests.new ≤ MAX_TESTS) }
{
    if reader.stands(TokenKind::Not) {
        return negation(reader, alloc, depth, tests);
    }
    if reader.stands(TokenKind::OpenBracket) {
        return bracket(reader, alloc, depth, tests);
    }
    reader.tested(alloc, depth, tests)
}

/// Reads a `not`, whose word is in front.
#[cycle(conditions)]
fn negation<A: Allocator + Clone>(
    reader: &mut Reader<'_>,
    alloc: &A,
    depth: u32,
    tests: &mut u32,
) -> Result<Cond<A>, Stop>
    requires at_not { SeesKind kinds.Not reader.old }
    requires depth { depth ≤ MAX_OPEN }
    requires tests { tests.old ≤ MAX_TESTS }
    ensures read { Reads (Operand depth tests.old) (λ c. record {
      formula = cond_content c;
      count =
          tests.new;
    }) reader.old reader.new result }
    ensures room { OnOk result (tests.new ≤ MAX_TESTS) }
{
    reader.deeper(depth, MAX_OPEN)?;
    let operand = operand(reader, alloc, depth + 1, tests);
    not_of(alloc, operand)
}

/// Reads a condition in brackets, the first of which is in front.
#[cycle(conditions)]
fn bracket<A: Allocator + Clone>(
    reader: &mut Reader<'_>,
    alloc: &A,
    depth: u32,
    tests: &mut u32,
) -> Result<Cond<A>, Stop>
    requires at_bracket { SeesKind kinds.OpenBracket reader.old }
    requires depth { depth ≤ MAX_OPEN }
    requires tests { tests.old ≤ MAX_TESTS }
    ensures read { Reads (Operand depth tests.old) (λ c. record {
      formula = cond_content c;
      count =
          tests.new;
    }) reader.old reader.new result }
    ensures room { OnOk result (tests.new ≤ MAX_TESTS) }
{
    reader.deeper(depth, MAX_OPEN)?;
    let inner = condition(reader, alloc, depth + 1, tests);
    reader.ended(TokenKind::CloseBracket, inner)
}

/// Reads operands with `and` between them.
#[cycle(conditions)]
fn conjunction<A: Allocator + Clone>(
    reader: &mut Reader<'_>,
    alloc: &A,
    depth: u32,
    tests: &mut u32,
) -> Result<Cond<A>, Stop>
    requires depth { depth ≤ MAX_OPEN }
    requires tests { tests.old ≤ MAX_TESTS }
    ensures read { Reads (Conj depth tests.old) (λ c. record {
      formula = cond_content c;
      count =
          tests.new;
    }) reader.old reader.new result }
    ensures room { OnOk result (tests.new ≤ MAX_TESTS) }
{
    let mut left = operand(reader, alloc, depth, tests)?;
    'ands: while reader.skip(TokenKind::And) {
        let right = operand(reader, alloc, depth, tests);
        left = and_of(alloc, left, right)?;
    }
    Ok(left)
}

/// Reads a condition inside `depth` open `not`s and brackets.
#[cycle(conditions)]
pub fn condition<A: Allocator + Clone>(
    reader: &mut Reader<'_>,
    alloc: &A,
    depth: u32,
    tests: &mut u32,
) -> Result<Cond<A>, Stop>
    requires depth { depth ≤ MAX_OPEN }
    requires tests { tests.old ≤ MAX_TESTS }
    ensures read { Reads (Cond' depth tests.old) (λ c. record {
      formula = cond_content c;
      count =
          tests.new;
    }) reader.old reader.new result }
    ensures room { OnOk result (tests.new ≤ MAX_TESTS) }
{
    let mut left = conjunction(reader, alloc, depth, tests)?;
    'ors: while reader.skip(TokenKind::Or) {
        let right = conjunction(reader, alloc, depth, tests);
        left = or_of(alloc, left, right)?;
    }
    Ok(left)
}
