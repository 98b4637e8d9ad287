//! The actions of a class, each with the parameters that its first state lists.
ghost use Rattle.std.specs.Prelude.{◌≡◌, All, IfOk, OnOk, map, flat_map};
ghost use Rattle.sml_tree.specs.Content.{action_content, state_content, class_content};
ghost use Rattle.sml_check_faults.specs.Lookup as look;
ghost use Rattle.sml_check_build.specs.Placed.{SignaturePlaced, StateSigned};
ghost use Rattle.sml_check_build.specs.Rows as rows;
ghost use Rattle.sml_check_build.specs.Signed as signed;

use crate::names::Names;
use crate::params::action_params;
use sml_domain::{NumberedNames, Signature};
use sml_tree::{Action, Class, State};
use std::alloc::{AllocError, Allocator, Global};
use std::marker::Model;

// Actions that were gathered, and their names.
#[derive(Drop)]
struct Signed {
    declared: NumberedNames,
    rows: Vec<Signature>,
}

impl Model for Signed {
    ghost use Rattle.sml_check_build.specs.Signed as signed;

    ghost Value = { signed.Signed };

    ghost view = { λ s. record { declared = s.declared; rows = s.rows.items } };
}

// Returns an action with its parameters.
fn signature<A: Allocator + Clone>(
    alloc: Global,
    names: &Names,
    action: &Action<A>,
) -> Result<Signature, AllocError>
    requires { SignaturePlaced names.now (action_content action.now) }
    ensures { IfOk result (λ x. x ≡ signed.own_signature names.now (action_content action.now)) }
{
    let Some(number) = names.action(&action.name) else {
        unreachable!();
    };
    let params = action_params(alloc, &action.params)?;
    Ok(Signature {
        action: number,
        params,
    })
}

// Adds an action, unless one of its name was added.
fn add_action<A: Allocator + Clone>(
    alloc: Global,
    made: &mut Signed,
    names: &Names,
    action: &Action<A>,
) -> Result<(), AllocError>
    requires { SignaturePlaced names.now (action_content action.now) }
    ensures { OnOk result (made.new ≡ signed.with_action names.now made.old (action_content action.now)) }
{
    if made.declared.number_of(&action.name).is_none() {
        made.rows.push(signature(alloc, names, action)?)?;
        made.declared.add(action.name)?;
    }
    Ok(())
}

// Adds the actions of a state.
fn add_actions<A: Allocator + Clone>(
    alloc: Global,
    made: &mut Signed,
    names: &Names,
    actions: &Vec<Action<A>, A>,
) -> Result<(), AllocError>
    requires { All (SignaturePlaced names.now) (map action_content actions.now.items) }
    ensures { OnOk result (made.new ≡ signed.with_actions names.now made.old (map action_content actions.now.items)) }
{
    for action in actions {
        add_action(alloc, made, names, action)?;
    }
    Ok(())
}

// Adds the actions of some states.
fn add_states<A: Allocator + Clone>(
    alloc: Global,
    made: &mut Signed,
    names: &Names,
    states: &Vec<State<A>, A>,
) -> Result<(), AllocError>
    requires { All (StateSigned names.now) (map state_content states.now.items) }
    ensures { OnOk result (made.new ≡ signed.with_actions names.now made.old
        (flat_map look.actions_of (map state_content states.now.items))) }
{
    for state in states {
        add_actions(alloc, made, names, &state.actions)?;
    }
    Ok(())
}

/// Returns the actions of a class, with their parameters, in the order of their first declaration. The cost
/// is the count of its actions and of their parameters.
pub fn signatures<A: Allocator + Clone>(
    alloc: Global,
    names: &Names,
    class: &Class<A>,
) -> Result<Vec<Signature>, AllocError>
    requires { All (StateSigned names.now) (map state_content class.now.states.items) }
    ensures { IfOk result (λ v. v.items ≡ rows.signature_rows names.now (class_content class.now)) }
{
    let mut made = Signed {
        declared: NumberedNames::new(alloc),
        rows: Vec::new(alloc),
    };
    add_states(alloc, &mut made, names, &class.states)?;
    Ok(made.rows)
}
