//! What is told of states and parameters.
ghost use Rattle.std.specs.Prelude.{◌≡◌, ◌<◌, ◌++◌, OnOk, length, option_map, slice_get};
ghost use Rattle.std.specs.Option.{option_to_list};
ghost use Rattle.smi_front_moved.specs.MovedLines as spec;
ghost use Rattle.smi_front_moved.specs.Tables.{AreKillersOf};

use crate::lines::{MovedLine, add_unless};
use crate::moving::{Moving, is_marked, is_object_now, stand_before, stands_before};
use crate::others::state_as;
use crate::params::{is_kind, param_named};
use crate::tables::killer_at;
use smi_journal::SessionId;
use sml_domain::{Domain, ObjId, Param, StateId};
use std::alloc::AllocError;

// Whether the state of an object of the old domain goes to one of the new domain.
fn state_stays_at(
    moving: &Moving<'_>,
    killers: &[Option<SessionId>],
    p: ObjId,
    s: StateId,
    o: ObjId,
) -> bool
    requires within { p < length moving.now.old.objects }
    requires killers { AreKillersOf moving.now killers.now }
    ensures { result ≡ spec.state_stays_at moving.now p s o }
{
    killer_at(moving, killers, p).is_some()
        || is_marked(moving.anew, p.get())
        || state_as(moving.old, moving.new, o, s).is_some()
}

// Whether the new domain has the object, and the state, if that matters.
fn state_stays(moving: &Moving<'_>, killers: &[Option<SessionId>], p: ObjId, s: StateId) -> bool
    requires { AreKillersOf moving.now killers.now }
    ensures { result ≡ spec.state_stays moving.now p s }
{
    match is_object_now(moving, p) {
        Some(o) => state_stays_at(moving, killers, p, s, o),
        None => false,
    }
}

// Adds the line of the state of an object of the old domain, if it is gone.
fn add_gone_state(
    lines: &mut Vec<MovedLine>,
    moving: &Moving<'_>,
    killers: &[Option<SessionId>],
    p: ObjId,
) -> Result<(), AllocError>
    requires { AreKillersOf moving.now killers.now }
    ensures { OnOk result (lines.new.items ≡ lines.old.items ++ option_to_list (spec.gone_state moving.now p)) }
{
    match stand_before(moving, p) {
        Some(stand) => {
            let stays = state_stays(moving, killers, p, stand.state);
            add_unless(lines, stays, MovedLine::GoneState(p, stand.state))
        }
        None => Ok(()),
    }
}

/// Adds the lines of the states that are gone. The cost is some look-ups by hash for each object. The error is out of
/// memory.
pub(crate) fn add_gone_states(
    lines: &mut Vec<MovedLine>,
    moving: &Moving<'_>,
    killers: &[Option<SessionId>],
) -> Result<(), AllocError>
    requires { AreKillersOf moving.now killers.now }
    ensures { OnOk result (lines.new.items ≡ lines.old.items ++ spec.gone_states moving.now) }
{
    for p in 0..stands_before(moving).len() {
        add_gone_state(lines, moving, killers, ObjId::new(p))?;
    }
    Ok(())
}

// Whether an object has a parameter of the name and the kind.
fn takes_param(domain: &Domain, given: &Param, o: ObjId) -> bool
    ensures { result ≡ spec.takes_param domain.now given.now o }
{
    match param_named(domain.class_parameters(o), &given.name) {
        Some(param) => is_kind(given.kind, param.kind),
        None => false,
    }
}

// Whether the new domain has a parameter of an object of the old one, or that begins anew.
fn param_stays(moving: &Moving<'_>, p: ObjId, given: &Param) -> bool
    ensures { result ≡ spec.param_stays moving.now p given.now }
{
    if is_marked(moving.anew, p.get()) {
        return true;
    }
    match is_object_now(moving, p) {
        Some(o) => takes_param(moving.new, given, o),
        None => false,
    }
}

/// The parameters of an object of the old domain.
pub(crate) fn params_in_front<'a>(moving: &Moving<'a>, p: ObjId) -> &'a [Param]
    ensures { result.now ≡ spec.params_in_front moving.now p }
{
    match stand_before(moving, p) {
        Some(stand) => &stand.params,
        None => &[],
    }
}

/// The one at a place.
pub(crate) fn param_in_front<'a>(moving: &Moving<'a>, p: ObjId, place: usize) -> Option<&'a Param>
    ensures { option_map (λ x. x.now) result ≡ slice_get (spec.params_in_front moving.now p) place }
{
    params_in_front(moving, p).get(place)
}

// Adds the line of the parameter at a place of an object of the old domain, if it is gone.
fn add_gone_param(
    lines: &mut Vec<MovedLine>,
    moving: &Moving<'_>,
    p: ObjId,
    place: usize,
) -> Result<(), AllocError>
    ensures { OnOk result (lines.new.items ≡ lines.old.items ++ option_to_list (spec.gone_param moving.now p place)) }
{
    match param_in_front(moving, p, place) {
        Some(given) => {
            let stays = param_stays(moving, p, given);
            add_unless(lines, stays, MovedLine::GoneParam(p, place))
        }
        None => Ok(()),
    }
}

// Adds the lines of the parameters of an object that are gone.
fn add_gone_params_of(
    lines: &mut Vec<MovedLine>,
    moving: &Moving<'_>,
    p: ObjId,
) -> Result<(), AllocError>
    ensures { OnOk result (lines.new.items ≡ lines.old.items ++ spec.gone_params_of moving.now p) }
{
    for place in 0..params_in_front(moving, p).len() {
        add_gone_param(lines, moving, p, place)?;
    }
    Ok(())
}

/// Adds the lines of all parameters that are gone. The cost is for each parameter a look-up by hash and the count of
/// those of its object. The error is out of memory.
pub(crate) fn add_gone_params(
    lines: &mut Vec<MovedLine>,
    moving: &Moving<'_>,
) -> Result<(), AllocError>
    ensures { OnOk result (lines.new.items ≡ lines.old.items ++ spec.gone_params moving.now) }
{
    for p in 0..stands_before(moving).len() {
        add_gone_params_of(lines, moving, ObjId::new(p))?;
    }
    Ok(())
}
