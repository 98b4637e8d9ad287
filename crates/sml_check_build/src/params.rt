//! The parameters of classes and of actions.
ghost use Rattle.std.specs.Prelude.{◌≡◌, All, IfOk, IfSome, map, option_map};
ghost use Rattle.sml_tree.specs.Content.{literal_content, class_param_content, action_param_content};
ghost use Rattle.sml_domain.specs.Values.{literal_value};
ghost use Rattle.sml_check_build.specs.Placed.{IsWritten, ParamWritten, DefaultWritten};
ghost use Rattle.sml_check_build.specs.Rows as rows;

use crate::values::value;
use sml_domain::{Param, Value};
use sml_tree::{ActionParam, ClassParam, Literal};
use std::alloc::{AllocError, Allocator, Global};

// Returns a parameter of a class, with its value.
fn class_param<A: Allocator + Clone>(
    alloc: Global,
    param: &ClassParam<A>,
) -> Result<Param, AllocError>
    requires { ParamWritten (class_param_content param.now) }
    ensures { IfOk result (λ p. p ≡ rows.class_param_row (class_param_content param.now)) }
{
    Ok(Param {
        name: param.name,
        kind: param.kind,
        value: Some(value(alloc, &param.value)?),
    })
}

/// Returns the parameters of a class.
pub fn class_params<A: Allocator + Clone>(
    alloc: Global,
    params: &Vec<ClassParam<A>, A>,
) -> Result<Vec<Param>, AllocError>
    requires { All ParamWritten (map class_param_content params.now.items) }
    ensures { IfOk result (λ v. v.items ≡ map rows.class_param_row (map class_param_content params.now.items)) }
{
    let mut made = Vec::new(alloc);
    for param in params {
        made.push(class_param(alloc, param)?)?;
    }
    Ok(made)
}

// Returns the default of a parameter, if it has one.
fn default_of<A: Allocator + Clone>(
    alloc: Global,
    default: &Option<Literal<A>>,
) -> Result<Option<Value>, AllocError>
    requires { IfSome (option_map literal_content default.now) IsWritten }
    ensures { IfOk result (λ v. v ≡ option_map literal_value (option_map literal_content default.now)) }
{
    match default {
        Some(literal) => Ok(Some(value(alloc, literal)?)),
        None => Ok(None),
    }
}

// Returns a parameter of an action, with its default, if it has one.
fn action_param<A: Allocator + Clone>(
    alloc: Global,
    param: &ActionParam<A>,
) -> Result<Param, AllocError>
    requires { DefaultWritten (action_param_content param.now) }
    ensures { IfOk result (λ p. p ≡ rows.action_param_row (action_param_content param.now)) }
{
    Ok(Param {
        name: param.name,
        kind: param.kind,
        value: default_of(alloc, &param.default)?,
    })
}

/// Returns the parameters of an action.
pub fn action_params<A: Allocator + Clone>(
    alloc: Global,
    params: &Vec<ActionParam<A>, A>,
) -> Result<Vec<Param>, AllocError>
    requires { All DefaultWritten (map action_param_content params.now.items) }
    ensures { IfOk result (λ v. v.items ≡ map rows.action_param_row (map action_param_content params.now.items)) }
{
    let mut made = Vec::new(alloc);
    for param in params {
        made.push(action_param(alloc, param)?)?;
    }
    Ok(made)
}
