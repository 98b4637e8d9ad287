//! The text of conditions.
ghost use Rattle.std.specs.Prelude.{◌≡◌};
ghost use Rattle.sml_text.specs.Written.{Told, StaysDue};
ghost use Rattle.sml_tree.specs.Content.{cond_content};
ghost use Rattle.sml_tree.specs.Brackets.{is_or as or', is_chain as chain'};
ghost use Rattle.sml_print.specs.Conditions as text;

use crate::word::{tell_members, tell_name};
use sml_text::{Sink, tell};
use sml_tree::{Cond, Name, Scope};
use std::alloc::Allocator;

// Writes the states of a test.
fn tell_states<S: Sink>(sink: &mut S, failed: &mut bool, states: &[Name])
    ensures told { Told (S.contents sink.old) failed.old (S.contents sink.new) failed.new
        (text.states_text states.now) }
    ensures due { StaysDue (S.has_refused sink.old) failed.old (S.has_refused sink.new) failed.new }
{
    match states {
        [state] => tell_name(sink, failed, state),
        _ => tell_members(sink, failed, states),
    }
}

// Writes whom a test asks.
fn tell_scope<S: Sink>(sink: &mut S, failed: &mut bool, scope: Scope)
    ensures told { Told (S.contents sink.old) failed.old (S.contents sink.new) failed.new (text.scope_text scope) }
    ensures due { StaysDue (S.has_refused sink.old) failed.old (S.has_refused sink.new) failed.new }
{
    match scope {
        Scope::One => {}
        Scope::All => tell(sink, failed, b"all_in "),
        Scope::Any => tell(sink, failed, b"any_in "),
    }
}

// Writes what a test asks.
fn tell_sense<S: Sink>(sink: &mut S, failed: &mut bool, negated: bool)
    ensures told { Told (S.contents sink.old) failed.old (S.contents sink.new) failed.new (text.sense_text negated) }
    ensures due { StaysDue (S.has_refused sink.old) failed.old (S.has_refused sink.new) failed.new }
{
    if negated {
        tell(sink, failed, b" not_in_state ");
    } else {
        tell(sink, failed, b" in_state ");
    }
}

// Writes a test.
fn tell_test<S: Sink>(
    sink: &mut S,
    failed: &mut bool,
    scope: Scope,
    name: &Name,
    negated: bool,
    states: &[Name],
)
    ensures told { Told (S.contents sink.old) failed.old (S.contents sink.new) failed.new
        (text.test_text (record { scope = scope; name = name.now; negated = negated; states = states.now })) }
    ensures due { StaysDue (S.has_refused sink.old) failed.old (S.has_refused sink.new) failed.new }
{
    tell_scope(sink, failed, scope);
    tell_name(sink, failed, name);
    tell_sense(sink, failed, negated);
    tell_states(sink, failed, states);
}

// Whether this is an `or`.
fn is_or<A: Allocator + Clone>(cond: &Cond<A>) -> bool
    ensures { result ≡ or' (cond_content cond.now) }
{
    match cond {
        Cond::Or(..) => true,
        Cond::And(..) | Cond::Not(_) | Cond::Test { .. } => false,
    }
}

// Whether this is an `and` or an `or`.
fn is_chain<A: Allocator + Clone>(cond: &Cond<A>) -> bool
    ensures { result ≡ chain' (cond_content cond.now) }
{
    match cond {
        Cond::And(..) | Cond::Or(..) => true,
        Cond::Not(_) | Cond::Test { .. } => false,
    }
}

// Writes a condition, in brackets if it needs them.
#[cycle(conditions)]
fn tell_operand<S: Sink, A: Allocator + Clone>(
    sink: &mut S,
    failed: &mut bool,
    cond: &Cond<A>,
    brackets: bool,
)
    ensures told { Told (S.contents sink.old) failed.old (S.contents sink.new) failed.new
        (text.bracketed brackets (text.cond_text (cond_content cond.now))) }
    ensures due { StaysDue (S.has_refused sink.old) failed.old (S.has_refused sink.new) failed.new }
{
    if brackets {
        tell(sink, failed, b"( ");
        tell_cond(sink, failed, cond);
        tell(sink, failed, b" )");
    } else {
        tell_cond(sink, failed, cond);
    }
}

// Writes a condition.
#[cycle(conditions)]
pub(crate) fn tell_cond<S: Sink, A: Allocator + Clone>(
    sink: &mut S,
    failed: &mut bool,
    cond: &Cond<A>,
)
    ensures told { Told (S.contents sink.old) failed.old (S.contents sink.new) failed.new
        (text.cond_text (cond_content cond.now)) }
    ensures due { StaysDue (S.has_refused sink.old) failed.old (S.has_refused sink.new) failed.new }
{
    match cond {
        Cond::And(left, right) => {
            tell_operand(sink, failed, left, is_or(left));
            tell(sink, failed, b" and ");
            tell_operand(sink, failed, right, is_chain(right));
        }
        Cond::Or(left, right) => {
            tell_cond(sink, failed, left);
            tell(sink, failed, b" or ");
            tell_operand(sink, failed, right, is_or(right));
        }
        Cond::Not(inner) => {
            tell(sink, failed, b"not ");
            tell_operand(sink, failed, inner, is_chain(inner));
        }
        Cond::Test {
            scope,
            name,
            negated,
            states,
        } => tell_test(sink, failed, *scope, name, *negated, states),
    }
}
