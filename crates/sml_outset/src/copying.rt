//! Copies of the rows of a class.
ghost use Rattle.std.specs.Prelude.{◌≡◌, IfOk};
ghost use Rattle.sml_outset.specs.Standing.{class_standing};

use crate::outset::Stand;
use sml_domain::{Class, Param, Signature, State, Table, Value};
use sml_tree::Name;
use std::alloc::{AllocError, Global};

// Returns the same value, if there is one.
fn copy_value(value: &Option<Value>) -> Result<Option<Value>, AllocError>
    ensures { IfOk result (λ v. v ≡ value.now) }
{
    match value {
        Some(value) => Ok(Some(value.share()?)),
        None => Ok(None),
    }
}

// Returns the same parameter.
fn copy_param(param: &Param) -> Result<Param, AllocError>
    ensures { IfOk result (λ p. p ≡ param.now) }
{
    Ok(Param {
        name: param.name,
        kind: param.kind,
        value: copy_value(&param.value)?,
    })
}

// Returns the same parameters.
fn copy_params(alloc: Global, params: &[Param]) -> Result<Vec<Param>, AllocError>
    ensures { IfOk result (λ v. v.items ≡ params.now) }
{
    let mut made = Vec::new(alloc);
    for param in params {
        made.push(copy_param(param)?)?;
    }
    Ok(made)
}

// Returns the same state.
fn copy_state(alloc: Global, state: &State) -> Result<State, AllocError>
    ensures { IfOk result (λ s. s ≡ state.now) }
{
    let actions = Vec::from_slice(alloc, state.actions.rows())?;
    Ok(State {
        number: state.number,
        actions: Table::new(alloc, actions)?,
    })
}

// Returns the same states.
fn copy_states(alloc: Global, states: &[State]) -> Result<Vec<State>, AllocError>
    ensures { IfOk result (λ v. v.items ≡ states.now) }
{
    let mut made = Vec::new(alloc);
    for state in states {
        made.push(copy_state(alloc, state)?)?;
    }
    Ok(made)
}

// Returns the same parameters of an action.
fn copy_signature(alloc: Global, signature: &Signature) -> Result<Signature, AllocError>
    ensures { IfOk result (λ s. s ≡ signature.now) }
{
    Ok(Signature {
        action: signature.action,
        params: copy_params(alloc, &signature.params)?,
    })
}

// Returns the same parameters of actions.
fn copy_signatures(alloc: Global, signatures: &[Signature]) -> Result<Vec<Signature>, AllocError>
    ensures { IfOk result (λ v. v.items ≡ signatures.now) }
{
    let mut made = Vec::new(alloc);
    for signature in signatures {
        made.push(copy_signature(alloc, signature)?)?;
    }
    Ok(made)
}

// Returns a class for one object, which begins so. The cost is that of the rows of its class.
pub(crate) fn own_class(
    alloc: Global,
    name: Name,
    class: &Class,
    stand: &Stand,
) -> Result<Class, AllocError>
    ensures { IfOk result (λ c. c ≡ class_standing name class.now stand.now) }
{
    let params = copy_params(alloc, &stand.params)?;
    let signatures = copy_signatures(alloc, class.signatures.rows())?;
    let states = copy_states(alloc, class.states.rows())?;
    Ok(Class {
        name,
        associated: class.associated,
        params,
        states: Table::new(alloc, states)?,
        initial: stand.state,
        dead: class.dead,
        signatures: Table::new(alloc, signatures)?,
    })
}
