//! The lines of parameters.
ghost use Rattle.std.specs.Prelude.{◌≡◌, ◌++◌, All, IfErr, IfOk, length, map, option_map};
ghost use Rattle.sml_domain.specs.Lookups.{class_params_at};
ghost use Rattle.sml_outset.specs.Suits.{ParamsSuit, StandsSuit};
ghost use Rattle.smi_outset_text.specs.OutsetText.{numbered, outset_param_front, outset_param_lines, stand_param_lines};
ghost use Rattle.smi_outset_text.specs.Lines.{BeginsWithLines, param_lines, param_lines_of};
ghost use Rattle.smi_outset_text.specs.Reading.{AreOwnStates, FaultIsIn, FollowsFront, IsHeldParam, IsHeldStand, ReadsParam, state_of_stand};

use crate::fault::OutsetFault;
use crate::part::{Part, after_lines, length_of};
use crate::pieces::{behind_last, behind_object, split_line};
use crate::values::value_in;
use sml_domain::{Domain, ObjId, Param, StateId};
use sml_outset::Stand;
use std::alloc::{AllocError, Global};

// What follows the line of a parameter up to its value.
#[tactic(auto, using(crate::proofs::Fronts::follows_both, crate::proofs::Fronts::follows_none))]
fn behind_equals<'a>(text: &'a [u8], domain: &Domain, o: ObjId, param: &Param) -> Option<&'a [u8]>
    ensures { FollowsFront text.now (outset_param_front domain.now o param.now) (option_map (λ more. more.now) result) }
{
    match behind_object(text, b"! param", domain, o) {
        Some(more) => behind_last(more, Some(param.name), b"="),
        None => None,
    }
}

// The parameter with the value whose line is in front, and what follows it. The error is out of memory.
#[tactic(auto, using(crate::proofs::Valued::no_front, crate::proofs::Valued::no_feed, crate::proofs::Valued::no_value, crate::proofs::Valued::value_read))]
fn next_param<'a>(
    alloc: Global,
    text: &'a [u8],
    domain: &Domain,
    o: ObjId,
    param: &Param,
) -> Result<Option<(Param, &'a [u8])>, AllocError>
    ensures { IfOk result (λ r. ReadsParam domain.now o param.now text.now (option_map (λ x. (x.0, x.1.now)) r)) }
{
    let Some(more) = behind_equals(text, domain, o, param) else {
        return Ok(None);
    };
    let Some((digits, more)) = split_line(more) else {
        return Ok(None);
    };
    match value_in(alloc, param.kind, digits)? {
        Some(value) => {
            let given = Param {
                name: param.name,
                kind: param.kind,
                value: Some(value),
            };
            Ok(Some((given, more)))
        }
        None => Ok(None),
    }
}

// The parameters of an object whose lines are in front, in order.
fn read_params_of<'a>(
    alloc: Global,
    text: &'a [u8],
    domain: &Domain,
    o: ObjId,
) -> Result<Part<'a, Vec<Param>>, OutsetFault>
    ensures suit { IfOk result (λ x. ParamsSuit (class_params_at domain.now o) x.found.items) }
    ensures held { IfOk result (λ x. All IsHeldParam x.found.items) }
    ensures whole { IfOk result (λ x. text.now ≡ outset_param_lines domain.now o x.found.items ++ x.rest.now) }
    ensures count { IfOk result (λ x. x.lines ≡ length (param_lines_of domain.now o)) }
    ensures lines { IfOk result (λ x. BeginsWithLines domain.now (param_lines_of domain.now o) text.now x.rest.now) }
    ensures fault { IfErr result (FaultIsIn domain.now (param_lines_of domain.now o) text.now) }
{
    let params = domain.class_parameters(o);
    let mut found = Vec::new(alloc);
    let mut rest = text;
    for place in 0..params.len() {
        let Ok(read) = next_param(alloc, rest, domain, o, &params[place]) else {
            return Err(OutsetFault::Memory);
        };
        let next = match read {
            None => return Err(OutsetFault::BadLine(place)),
            Some(next) => next,
        };
        let Ok(()) = found.push(next.0) else {
            return Err(OutsetFault::Memory);
        };
        rest = next.1;
    }
    Ok(Part {
        found,
        lines: params.len(),
        rest,
    })
}

/// How all objects stand that are in these states, by the lines of their parameters, in order.
pub(crate) fn read_stands<'a>(
    alloc: Global,
    text: &'a [u8],
    domain: &Domain,
    states: &[StateId],
) -> Result<Part<'a, Vec<Stand>>, OutsetFault>
    requires { AreOwnStates domain.now states.now }
    ensures states { IfOk result (λ x. map state_of_stand x.found.items ≡ states.now) }
    ensures suit { IfOk result (λ x. StandsSuit domain.now x.found.items) }
    ensures held { IfOk result (λ x. All IsHeldStand x.found.items) }
    ensures whole { IfOk result (λ x. text.now
        ≡ numbered (stand_param_lines domain.now) 0 x.found.items ++ x.rest.now) }
    ensures count { IfOk result (λ x. x.lines ≡ length (param_lines domain.now)) }
    ensures lines { IfOk result (λ x. BeginsWithLines domain.now (param_lines domain.now) text.now x.rest.now) }
    ensures fault { IfErr result (FaultIsIn domain.now (param_lines domain.now) text.now) }
{
    // The length of a text has 64 bits, and so has the count of its lines.
    let _bytes = length_of(text);
    let mut found = Vec::new(alloc);
    let mut lines = 0;
    let mut rest = text;
    for o in 0..domain.objects() {
        let params = match read_params_of(alloc, rest, domain, ObjId::new(o)) {
            Ok(params) => params,
            Err(fault) => return Err(after_lines(lines, fault)),
        };
        lines += params.lines;
        rest = params.rest;
        let stand = Stand {
            state: states[o],
            params: params.found,
        };
        let Ok(()) = found.push(stand) else {
            return Err(OutsetFault::Memory);
        };
    }
    Ok(Part { found, lines, rest })
}
