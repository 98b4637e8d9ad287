//! Kills, and how often objects started and ended, in the new domain.
ghost use Rattle.std.specs.Prelude.{◌≡◌, ◌<◌, ◌≤◌, ◌++◌, IfOk, OnOk, length};
ghost use Rattle.std.specs.Option.{option_to_list};
ghost use Rattle.smi_front_moved.specs.Moving as moves;
ghost use Rattle.smi_front_moved.specs.CarriedMoved as spec;
ghost use Rattle.smi_front_moved.specs.Tables.{AreKillersOf};

use crate::moving::{Moving, counts_before, goes_on_from, was_object};
use crate::stands::{state_moved, state_on};
use crate::tables::killer_at;
use smi_carried::CarriedCounts;
use smi_journal::SessionId;
use smi_log_front::FrontKill;
use sml_domain::ObjId;
use std::alloc::{AllocError, Global};

// Who kills an object of the new domain again.
fn killer_moved(moving: &Moving<'_>, killers: &[Option<SessionId>], o: ObjId) -> Option<SessionId>
    requires { AreKillersOf moving.now killers.now }
    ensures { result ≡ moves.killer_moved moving.now o }
{
    match goes_on_from(moving, o) {
        Some(p) => killer_at(moving, killers, p),
        None => None,
    }
}

// Adds the kill of an object of the new domain to others, if it is killed again.
fn add_kill(
    kills: &mut Vec<FrontKill>,
    moving: &Moving<'_>,
    killers: &[Option<SessionId>],
    o: ObjId,
) -> Result<(), AllocError>
    requires { AreKillersOf moving.now killers.now }
    ensures { OnOk result (kills.new.items ≡ kills.old.items ++ option_to_list (spec.kill_moved moving.now o)) }
{
    match killer_moved(moving, killers, o) {
        Some(session) => kills.push(FrontKill { object: o, session })?,
        None => {}
    }
    Ok(())
}

/// The kills of objects of the new domain, in the order of their numbers. The cost is a look-up by hash for each
/// object. The error is out of memory.
pub(crate) fn kills_moved(
    alloc: Global,
    moving: &Moving<'_>,
    killers: &[Option<SessionId>],
) -> Result<Vec<FrontKill>, AllocError>
    requires { AreKillersOf moving.now killers.now }
    ensures { IfOk result (λ v. v.items ≡ spec.kills_moved moving.now) }
{
    let mut kills = Vec::new(alloc);
    for o in 0..moving.new.objects() {
        add_kill(&mut kills, moving, killers, ObjId::new(o))?;
    }
    Ok(kills)
}

// One, if it is so.
fn end_if(is: bool) -> u64
    ensures is { result ≡ spec.end_if is }
    ensures most { result ≤ 1 }
{
    if is { 1 } else { 0 }
}

// Whether an object of the new domain stands where it stood.
fn stands_still(moving: &Moving<'_>, killers: &[Option<SessionId>], o: ObjId, p: ObjId) -> bool
    requires within { o < length moving.now.new.objects }
    requires killers { AreKillersOf moving.now killers.now }
    ensures { result ≡ spec.stands_still moving.now o p }
{
    match state_on(moving, o, p) {
        Some(state) => state_moved(moving, killers, o) == state,
        None => false,
    }
}

// How many ends come to the count of an object.
fn ends_added(moving: &Moving<'_>, killers: &[Option<SessionId>], o: ObjId, p: ObjId) -> u64
    requires within { o < length moving.now.new.objects }
    requires old { p < length moving.now.old.objects }
    requires killers { AreKillersOf moving.now killers.now }
    ensures { result ≡ spec.ends_added moving.now o p }
{
    if killer_moved(moving, killers, o).is_some() {
        return 0;
    }
    let kill = end_if(killer_at(moving, killers, p).is_some());
    kill + end_if(!stands_still(moving, killers, o, p))
}

// Counts to which this number of ends is added.
fn with_ends(ends: u64, counts: &CarriedCounts) -> CarriedCounts
    ensures { result ≡ spec.with_ends ends counts.now }
{
    CarriedCounts {
        started: counts.started,
        ended: counts.ended.saturating_add(ends),
    }
}

// Nothing was counted.
fn nothing_counted() -> CarriedCounts
    ensures { result ≡ spec.nothing_counted }
{
    CarriedCounts {
        started: 0,
        ended: 0,
    }
}

// The counts of an object that was one of the old domain.
fn counts_going_on(
    moving: &Moving<'_>,
    killers: &[Option<SessionId>],
    o: ObjId,
    p: ObjId,
) -> CarriedCounts
    requires within { o < length moving.now.new.objects }
    requires old { p < length moving.now.old.objects }
    requires killers { AreKillersOf moving.now killers.now }
    ensures { result ≡ spec.counts_going_on moving.now o p }
{
    match counts_before(moving).get(p.get()) {
        Some(counts) => with_ends(ends_added(moving, killers, o, p), counts),
        None => nothing_counted(),
    }
}

// Those of an object of the new domain.
fn counts_moved(moving: &Moving<'_>, killers: &[Option<SessionId>], o: ObjId) -> CarriedCounts
    requires within { o < length moving.now.new.objects }
    requires killers { AreKillersOf moving.now killers.now }
    ensures { result ≡ spec.counts_moved moving.now o }
{
    match was_object(moving, o) {
        Some(p) => counts_going_on(moving, killers, o, p),
        None => nothing_counted(),
    }
}

/// How often the objects of the new domain started and ended. The cost is some look-ups by hash for each. The error is
/// out of memory.
pub(crate) fn all_counts_moved(
    alloc: Global,
    moving: &Moving<'_>,
    killers: &[Option<SessionId>],
) -> Result<Vec<CarriedCounts>, AllocError>
    requires { AreKillersOf moving.now killers.now }
    ensures { IfOk result (λ v. v.items ≡ spec.all_counts_moved moving.now) }
{
    let mut made = Vec::new(alloc);
    for o in 0..moving.new.objects() {
        made.push(counts_moved(moving, killers, ObjId::new(o)))?;
    }
    Ok(made)
}
