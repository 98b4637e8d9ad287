//! Conditions.
ghost use Rattle.std.specs.Prelude.{◌≡◌, ◌↔◌, IfOk, Ok, IsTrue};
ghost use Rattle.sml_tree.specs.Content.{cond_content};

use crate::name::{Name, same_names};
use std::alloc::{AllocError, Allocator};

/// Which objects a test asks.
#[derive(Clone, Copy, PartialEq, Eq)]
pub enum Scope {
    One,
    All,
    Any,
}

/// The condition of an `if`.
#[derive(Drop)]
pub enum Cond<A: Allocator + Clone> {
    And(Box<Cond<A>, A>, Box<Cond<A>, A>),
    Or(Box<Cond<A>, A>, Box<Cond<A>, A>),
    Not(Box<Cond<A>, A>),
    Test {
        scope: Scope,
        name: Name,
        negated: bool,
        states: Vec<Name, A>,
    },
}

impl<A: Allocator + Clone> Cond<A> {
    /// Copies the condition into other memory.
    pub fn copy_in<B: Allocator + Clone>(&self, alloc: B) -> Result<Cond<B>, AllocError>
        ensures { IfOk result (λ c. cond_content c ≡ cond_content self.now) }
    {
        self.copy_by(&alloc)
    }

    // Copies the condition into this memory.
    pub(crate) fn copy_by<B: Allocator + Clone>(&self, alloc: &B) -> Result<Cond<B>, AllocError>
        ensures { IfOk result (λ c. cond_content c ≡ cond_content self.now) }
    {
        match self {
            Cond::And(a, b) => {
                let (left, right) = both(a.copy_by(alloc), b.copy_by(alloc), alloc)?;
                Ok(Cond::And(left, right))
            }
            Cond::Or(a, b) => {
                let (left, right) = both(a.copy_by(alloc), b.copy_by(alloc), alloc)?;
                Ok(Cond::Or(left, right))
            }
            Cond::Not(a) => Ok(Cond::Not(boxed(a.copy_by(alloc), alloc)?)),
            Cond::Test {
                scope,
                name,
                negated,
                states,
            } => Ok(Cond::Test {
                scope: *scope,
                name: *name,
                negated: *negated,
                states: Vec::from_slice(alloc.clone()?, states)?,
            }),
        }
    }

    /// Whether two conditions are the same.
    pub fn same<B: Allocator + Clone>(&self, other: &Cond<B>) -> bool
        ensures { IsTrue result ↔ (cond_content self.now ≡ cond_content other.now) }
    {
        match (self, other) {
            (Cond::And(a, b), Cond::And(c, d)) => a.same(c) && b.same(d),
            (Cond::Or(a, b), Cond::Or(c, d)) => a.same(c) && b.same(d),
            (Cond::Not(a), Cond::Not(b)) => a.same(b),
            (
                Cond::Test {
                    scope,
                    name,
                    negated,
                    states,
                },
                Cond::Test {
                    scope: other_scope,
                    name: other_name,
                    negated: other_negated,
                    states: other_states,
                },
            ) => {
                let same_question = *scope == *other_scope && *negated == *other_negated;
                same_question && same_tested(name, states, other_name, other_states)
            }
            _ => false,
        }
    }
}

// Returns a copy in a box, if there was memory for both.
fn boxed<A: Allocator + Clone>(
    copy: Result<Cond<A>, AllocError>,
    alloc: &A,
) -> Result<Box<Cond<A>, A>, AllocError>
    ensures { IfOk result (λ b. copy ≡ Ok b.value) }
{
    Ok(Box::new(alloc.clone()?, copy?)?)
}

// Returns two copies in boxes, if there was memory for all of it.
fn both<A: Allocator + Clone>(
    left: Result<Cond<A>, AllocError>,
    right: Result<Cond<A>, AllocError>,
    alloc: &A,
) -> Result<(Box<Cond<A>, A>, Box<Cond<A>, A>), AllocError>
    ensures { IfOk result (λ p. (left ≡ Ok p.0.value) × (right ≡ Ok p.1.value)) }
{
    Ok((boxed(left, alloc)?, boxed(right, alloc)?))
}

// Whether two tests ask the same name for the same states.
fn same_tested(name: &Name, states: &[Name], other_name: &Name, other_states: &[Name]) -> bool
    ensures { IsTrue result ↔ ((name.now ≡ other_name.now) × (states.now ≡ other_states.now)) }
{
    *name == *other_name && same_names(states, other_states)
}
