//! The parameters of an object in the new domain.
ghost use Rattle.std.specs.Prelude.{◌≡◌, IfOk, find, map, option_map};
ghost use Rattle.sml_tree.specs.Kinds as kinds;
ghost use Rattle.sml_domain.specs.Completing.{value_or};
ghost use Rattle.sml_domain.specs.Fits.{names_param};
ghost use Rattle.smi_front_moved.specs.StandsMoved as spec;

use sml_domain::{Param, Value};
use sml_tree::{Kind, Name};
use std::alloc::{AllocError, Global};

/// Whether two kinds are the same.
pub(crate) fn is_kind(a: Kind, b: Kind) -> bool
    ensures { result ≡ kinds.same_kind a b }
{
    match (a, b) {
        (Kind::Int, Kind::Int) | (Kind::Str, Kind::Str) => true,
        _ => false,
    }
}

/// The parameter of a name. The cost is the count of parameters.
pub(crate) fn param_named<'a>(params: &'a [Param], name: &Name) -> Option<&'a Param>
    ensures { option_map (λ x. x.now) result ≡ find (names_param name.now) params.now }
{
    params.iter().find(|param| *name == param.name)
}

// The same value, if there is one.
fn copy_value(value: &Option<Value>) -> Result<Option<Value>, AllocError>
    ensures { IfOk result (λ v. v ≡ value.now) }
{
    match value {
        Some(value) => Ok(Some(value.share()?)),
        None => Ok(None),
    }
}

// The value of a parameter, if it is one of the kind.
fn value_of_kind(kind: Kind, given: &Param) -> Result<Option<Value>, AllocError>
    ensures { IfOk result (λ v. v ≡ spec.value_of_kind kind given.now) }
{
    if is_kind(given.kind, kind) {
        copy_value(&given.value)
    } else {
        Ok(None)
    }
}

// The value of the one of these that has the name of a parameter, if it has its kind.
fn value_among(given: &[Param], param: &Param) -> Result<Option<Value>, AllocError>
    ensures { IfOk result (λ v. v ≡ spec.value_among given.now param.now) }
{
    match param_named(given, &param.name) {
        Some(one) => value_of_kind(param.kind, one),
        None => Ok(None),
    }
}

// The value of a parameter among these, or else its declared one.
fn value_moved(given: &[Param], param: &Param) -> Result<Option<Value>, AllocError>
    ensures { IfOk result (λ v. v ≡ value_or (spec.value_among given.now param.now) param.now.value) }
{
    match value_among(given, param) {
        Ok(Some(value)) => Ok(Some(value)),
        Ok(None) => copy_value(&param.value),
        Err(error) => Err(error),
    }
}

// A parameter with its value among these, or else with its declared one.
fn param_moved(given: &[Param], param: &Param) -> Result<Param, AllocError>
    ensures { IfOk result (λ p. p ≡ spec.param_moved given.now param.now) }
{
    let value = value_moved(given, param)?;
    Ok(Param {
        name: param.name,
        kind: param.kind,
        value,
    })
}

/// Parameters, each with its value among these, or else with its declared one. The cost is the product of both counts.
/// The error is out of memory.
pub(crate) fn params_moved(
    alloc: Global,
    given: &[Param],
    params: &[Param],
) -> Result<Vec<Param>, AllocError>
    ensures { IfOk result (λ v. v.items ≡ map (spec.param_moved given.now) params.now) }
{
    let mut made = Vec::new(alloc);
    for param in params {
        made.push(param_moved(given, param)?)?;
    }
    Ok(made)
}
