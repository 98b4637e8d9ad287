//! How objects stand in the new domain.
ghost use Rattle.std.specs.Prelude.{◌≡◌, ◌<◌, IfOk, length, option_map, slice_get};
ghost use Rattle.std.specs.Option.{option_and_then};
ghost use Rattle.smi_front_moved.specs.Moving as moves;
ghost use Rattle.smi_front_moved.specs.StandsMoved as spec;
ghost use Rattle.smi_front_moved.specs.Tables.{AreKillersOf};

use crate::moving::{Moving, goes_on_from, stand_before};
use crate::others::{declared_dead, declared_state, state_as};
use crate::params::params_moved;
use crate::tables::killer_at;
use smi_journal::SessionId;
use sml_domain::{ObjId, Param, StateId};
use sml_outset::Stand;
use std::alloc::{AllocError, Global};

// The state in which an object of the old domain stands.
fn state_before(moving: &Moving<'_>, p: ObjId) -> Option<StateId>
    ensures { result ≡ option_map spec.stood_in (slice_get moving.now.front.outset.stands p) }
{
    match stand_before(moving, p) {
        Some(stand) => Some(stand.state),
        None => None,
    }
}

/// The state of an object of the new domain that has the name of that in which one of the old domain stands.
pub(crate) fn state_on(moving: &Moving<'_>, o: ObjId, p: ObjId) -> Option<StateId>
    ensures { result ≡ spec.state_on moving.now o p }
{
    match state_before(moving, p) {
        Some(state) => state_as(moving.old, moving.new, o, state),
        None => None,
    }
}

// The state in which an object goes on.
fn state_going_on(
    moving: &Moving<'_>,
    killers: &[Option<SessionId>],
    o: ObjId,
    p: ObjId,
) -> Option<StateId>
    requires within { o < length moving.now.new.objects }
    requires old { p < length moving.now.old.objects }
    requires killers { AreKillersOf moving.now killers.now }
    ensures { result ≡ spec.state_going_on moving.now o p }
{
    if killer_at(moving, killers, p).is_some() {
        Some(declared_dead(moving.new, o))
    } else {
        state_on(moving, o, p)
    }
}

// The state in which an object goes on, if it does.
fn state_if_going_on(
    moving: &Moving<'_>,
    killers: &[Option<SessionId>],
    o: ObjId,
) -> Option<StateId>
    requires within { o < length moving.now.new.objects }
    requires killers { AreKillersOf moving.now killers.now }
    ensures { result ≡ option_and_then (spec.state_going_on moving.now o) (moves.goes_on_from moving.now o) }
{
    match goes_on_from(moving, o) {
        Some(p) => state_going_on(moving, killers, o, p),
        None => None,
    }
}

/// The state of an object of the new domain.
pub(crate) fn state_moved(moving: &Moving<'_>, killers: &[Option<SessionId>], o: ObjId) -> StateId
    requires within { o < length moving.now.new.objects }
    requires killers { AreKillersOf moving.now killers.now }
    ensures { result ≡ spec.state_moved moving.now o }
{
    match state_if_going_on(moving, killers, o) {
        Some(state) => state,
        None => declared_state(moving.new, o),
    }
}

// The parameters that an object of the new domain had.
fn params_before<'a>(moving: &Moving<'a>, o: ObjId) -> &'a [Param]
    ensures { result.now ≡ spec.params_before moving.now o }
{
    match goes_on_from(moving, o) {
        Some(p) => match stand_before(moving, p) {
            Some(stand) => &stand.params,
            None => &[],
        },
        None => &[],
    }
}

// How an object of the new domain stands.
fn stand_moved(
    alloc: Global,
    moving: &Moving<'_>,
    killers: &[Option<SessionId>],
    o: ObjId,
) -> Result<Stand, AllocError>
    requires within { o < length moving.now.new.objects }
    requires killers { AreKillersOf moving.now killers.now }
    ensures { IfOk result (λ x. x ≡ spec.stand_moved moving.now o) }
{
    let state = state_moved(moving, killers, o);
    let params = params_moved(
        alloc,
        params_before(moving, o),
        moving.new.class_parameters(o),
    )?;
    Ok(Stand { state, params })
}

/// How all objects of the new domain stand. The cost is a look-up by hash for each, and for each of its parameters the
/// count of them. The error is out of memory.
pub(crate) fn stands_moved(
    alloc: Global,
    moving: &Moving<'_>,
    killers: &[Option<SessionId>],
) -> Result<Vec<Stand>, AllocError>
    requires { AreKillersOf moving.now killers.now }
    ensures { IfOk result (λ v. v.items ≡ spec.stands_moved moving.now) }
{
    let mut made = Vec::new(alloc);
    for o in 0..moving.new.objects() {
        made.push(stand_moved(alloc, moving, killers, ObjId::new(o))?)?;
    }
    Ok(made)
}
