//! What the next `if` or `wait` of an action names, looked up past the `set`s that come before it.
ghost use Rattle.std.specs.Prelude.{◌≡◌, [], IfOk, None, suc};
ghost use Rattle.sml_domain.specs.Program.{Nothing};
ghost use Rattle.smi_interp.specs.Ahead.{names_ahead, names_first, sets_ahead};
ghost use Rattle.smi_interp.specs.Cursor.{left_in, left_of};

use crate::contact::ContactNames;
use crate::cursor::{Place, next_of, settle};
use crate::eval::names_in;
use sml_domain::{Domain, Instr};
use std::alloc::{AllocError, Global};

// The names of the `if` or `wait` at a place; None if a `set` is there, and no names if anything else is. The cost is
// that of the instruction.
fn names_at(alloc: Global, domain: &Domain, at: Place) -> Result<Option<ContactNames>, AllocError>
    ensures { IfOk result (λ names. names ≡ names_first (left_in domain.now at)) }
{
    match domain.instruction(at.block, at.index) {
        Some(Instr::Set { .. }) => Ok(None),
        Some(Instr::If { cond, .. }) => Ok(Some(names_in(alloc, cond)?)),
        Some(Instr::Wait(names)) => Ok(Some(ContactNames::copied(alloc, names)?)),
        _ => Ok(Some(ContactNames::new(alloc, Vec::new(alloc))?)),
    }
}

// The place to which an action comes after the `set` at a place. The cost is the count of blocks that are left.
fn past_set(domain: &Domain, at: &Place, later: &mut Vec<Place>) -> Place
    requires { names_first (left_in domain.now at.now) ≡ None }
    ensures same { names_ahead (left_of domain.now result later.new.items)
        ≡ names_ahead (left_of domain.now at.now later.old.items) }
    ensures fewer { suc (sets_ahead (left_of domain.now result later.new.items))
        ≡ sets_ahead (left_of domain.now at.now later.old.items) }
    ensures settled { left_in domain.now result ≡ Nothing → later.new.items ≡ [] }
{
    let next = next_of(domain, *at);
    settle(domain, next, later)
}

/// The names of the next `if` or `wait` of what is left at a place and then at those of `later`, where `set`s alone
/// come before it; else no names. The cost is the count of these `set`s and of the blocks that are left, and that of
/// the names. What is in `later` then is not said.
pub fn names_from(
    alloc: Global,
    domain: &Domain,
    at: Place,
    later: &mut Vec<Place>,
) -> Result<ContactNames, AllocError>
    ensures { IfOk result (λ names. names ≡ names_ahead (left_of domain.now at later.old.items)) }
{
    let mut at = settle(domain, at, later);
    'ahead: loop {
        if let Some(names) = names_at(alloc, domain, at)? {
            return Ok(names);
        }
        at = past_set(domain, &at, later);
    }
}
