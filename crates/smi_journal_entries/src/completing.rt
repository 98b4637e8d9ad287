//! Completing: what is passed by name becomes the arguments of a request, in the order of the
//! parameters.
ghost use Rattle.std.specs.Prelude.{◌≡◌, ◌↔◌, IfOk, IfSome, None, Ok, Some, false, map, option_map, true};
ghost use Rattle.std.specs.List.{list_any};
ghost use Rattle.sml_domain.specs.Completing as completing;
ghost use Rattle.sml_domain.specs.Fits.{kind_named};
ghost use Rattle.smi_journal_entries.specs.BadArguments as says;

use crate::args::Args;
use crate::fits::is_kind;
use sml_domain::{Param, Value};
use sml_tree::{Kind, Name};
use std::alloc::{AllocError, Global};
use std::marker::Model;

/// A value that is passed by the name of its parameter.
#[derive(Drop)]
pub struct Passed {
    pub name: Name,
    pub value: Value,
}

impl Model for Passed {
    ghost use Rattle.sml_domain.specs.Completing as completing;

    ghost Value = { completing.Passed };

    ghost view = { λ x. record { name = x.name; value = x.value } };
}

// Returns the kind of the parameter of a name.
fn kind_of_param(params: &[Param], name: &Name) -> Option<Kind>
    ensures { result ≡ kind_named params.now name.now }
{
    match params.iter().find(|param| *name == param.name) {
        Some(param) => Some(param.kind),
        None => None,
    }
}

// Whether a value is passed by a name that no parameter has.
fn has_unknown_name(params: &[Param], passed: &Passed) -> bool
    ensures { result ≡ says.has_unknown_name params.now passed.now }
{
    kind_of_param(params, &passed.name).is_none()
}

// Whether a value is of another kind than the parameter of its name.
fn has_wrong_kind(params: &[Param], passed: &Passed) -> bool
    ensures { result ≡ says.has_wrong_kind params.now passed.now }
{
    match kind_of_param(params, &passed.name) {
        Some(kind) => !is_kind(kind, passed.value.kind()),
        None => false,
    }
}

// Whether a value is passed by a name.
fn is_passed(passed: &[Passed], name: &Name) -> bool
    ensures { result ≡ list_any (completing.is_passed_by name.now) passed.now }
{
    passed.iter().any(|other| *name == other.name)
}

// Whether two values are passed by one name.
fn repeats_a_name(passed: &[Passed]) -> bool
    ensures { result ≡ says.repeats_a_name passed.now }
{
    match passed {
        [] => false,
        [first, rest @ ..] => is_passed(rest, &first.name) || repeats_a_name(rest),
    }
}

// Returns the value that is passed by a name.
fn value_passed<'a>(passed: &'a [Passed], name: &Name) -> Option<&'a Value>
    ensures { option_map (λ v. v.now) result ≡ completing.passed_by name.now passed.now }
{
    match passed.iter().find(|other| *name == other.name) {
        Some(found) => Some(&found.value),
        None => None,
    }
}

// Returns the value that a parameter gets: the passed one, or else the default.
fn value_for<'a>(passed: &'a [Passed], param: &'a Param) -> Option<&'a Value>
    ensures { option_map (λ v. v.now) result ≡ completing.value_for passed.now param.now }
{
    match value_passed(passed, &param.name) {
        Some(value) => Some(value),
        None => param.value.as_ref(),
    }
}

// Whether a parameter gets no value.
fn gets_none(passed: &[Passed], param: &Param) -> bool
    ensures { result ≡ says.gets_none passed.now param.now }
{
    value_for(passed, param).is_none()
}

fn is_any_unknown(params: &[Param], passed: &[Passed]) -> bool
    ensures { result ≡ list_any (says.has_unknown_name params.now) passed.now }
{
    passed.iter().any(|one| has_unknown_name(params, one))
}

fn is_any_missing(params: &[Param], passed: &[Passed]) -> bool
    ensures { result ≡ list_any (says.gets_none passed.now) params.now }
{
    params.iter().any(|param| gets_none(passed, param))
}

fn is_any_of_wrong_kind(params: &[Param], passed: &[Passed]) -> bool
    ensures { result ≡ list_any (says.has_wrong_kind params.now) passed.now }
{
    passed.iter().any(|one| has_wrong_kind(params, one))
}

// Whether what is passed makes no arguments.
fn are_bad(params: &[Param], passed: &[Passed]) -> bool
    ensures { result ≡ says.are_bad params.now passed.now }
{
    is_any_unknown(params, passed)
        || repeats_a_name(passed)
        || is_any_missing(params, passed)
        || is_any_of_wrong_kind(params, passed)
}

// Returns the values of parameters, each of which gets one.
fn complete_values(
    alloc: Global,
    params: &[Param],
    passed: &[Passed],
) -> Result<Vec<Value>, AllocError>
    requires { list_any (says.gets_none passed.now) params.now ≡ false }
    ensures { IfOk result (λ v. map Some v.items ≡ completing.complete params.now passed.now) }
{
    let mut values = Vec::new(alloc);
    for param in params {
        let Some(value) = value_for(passed, param) else {
            unreachable!();
        };
        values.push(value.share()?)?;
    }
    Ok(values)
}

/// Completes what is passed by name to the arguments for parameters: in their order, for each the
/// passed value, or else its default. Returns None if a name is unknown or repeated, a parameter is left
/// without a value, or a value is of the wrong kind. This is found before memory is allocated, so an
/// error, which is out of memory, comes only if there are arguments.
///
/// Texts are shared and not copied. The cost is the square of the larger count.
pub fn complete(
    alloc: Global,
    params: &[Param],
    passed: &[Passed],
) -> Result<Option<Args>, AllocError>
    ensures bad { (result ≡ Ok None) ↔ (says.are_bad params.now passed.now ≡ true) }
    ensures complete { IfOk result (λ made. IfSome made (λ args.
        map Some args ≡ completing.complete params.now passed.now)) }
{
    if are_bad(params, passed) {
        return Ok(None);
    }
    let values = complete_values(alloc, params, passed)?;
    Ok(Some(Args::new(alloc, values)?))
}
