//! Conditions, with numbers for names.
ghost use Rattle.std.specs.Prelude.{◌≡◌, IfOk};
ghost use Rattle.sml_tree.specs.Content.{cond_content};
ghost use Rattle.sml_domain.specs.Trees as trees;
ghost use Rattle.sml_check_build.specs.Programs as says;
ghost use Rattle.sml_check_build.specs.Placed.{AskedPlaced, CondPlaced};

use crate::names::Names;
use sml_domain::{Cond, StateId, Subject};
use sml_tree::{Name, Scope};
use std::alloc::{AllocError, Allocator, Global};

// Whom a test asks.
fn asked(names: &Names, scope: Scope, name: &Name) -> Subject
    requires { AskedPlaced names.now scope name.now }
    ensures { trees.asked result ≡ says.asked_numbered names.now scope name.now }
{
    match scope {
        Scope::One => Subject::One(names.object(name)),
        Scope::All => Subject::Each(names.group(name)),
        Scope::Any => Subject::Any(names.group(name)),
    }
}

// Returns the numbers of the states of a test, without those that no class has.
fn state_numbers(alloc: Global, names: &Names, states: &[Name]) -> Result<Vec<StateId>, AllocError>
    ensures { IfOk result (λ v. v.items ≡ says.state_numbers names.now states.now) }
{
    let mut numbers = Vec::new(alloc);
    for state in states {
        if let Some(number) = names.states.number_of(state) {
            numbers.push(StateId::new(number))?;
        }
    }
    Ok(numbers)
}

/// Returns a condition.
pub fn condition<A: Allocator + Clone>(
    alloc: Global,
    names: &Names,
    cond: &sml_tree::Cond<A>,
) -> Result<Cond, AllocError>
    requires { CondPlaced names.now (cond_content cond.now) }
    ensures { IfOk result (λ c. trees.formula c ≡ says.formula_numbered names.now (cond_content cond.now)) }
{
    match cond {
        sml_tree::Cond::And(a, b) => {
            let left = Box::new(alloc, condition(alloc, names, a)?)?;
            let right = Box::new(alloc, condition(alloc, names, b)?)?;
            Ok(Cond::And(left, right))
        }
        sml_tree::Cond::Or(a, b) => {
            let left = Box::new(alloc, condition(alloc, names, a)?)?;
            let right = Box::new(alloc, condition(alloc, names, b)?)?;
            Ok(Cond::Or(left, right))
        }
        sml_tree::Cond::Not(a) => {
            let inner = Box::new(alloc, condition(alloc, names, a)?)?;
            Ok(Cond::Not(inner))
        }
        sml_tree::Cond::Test {
            scope,
            name,
            negated,
            states,
        } => {
            let asked = asked(names, *scope, name);
            let states = state_numbers(alloc, names, states)?;
            Ok(Cond::Test {
                asked,
                negated: *negated,
                states,
            })
        }
    }
}
