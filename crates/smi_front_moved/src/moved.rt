//! The front of a log that goes on in another domain.
ghost use Rattle.std.specs.Prelude.{◌≡◌, IfNone, IfOk, IfSome};
ghost use Rattle.smi_log_front.specs.Suits.{FrontSuits};
ghost use Rattle.smi_front_moved.specs.CarriedMoved as carried;
ghost use Rattle.smi_front_moved.specs.FrontMoved as spec;
ghost use Rattle.smi_front_moved.specs.Tables.{AreKillersOf};

use crate::counts::{all_counts_moved, kills_moved};
use crate::members::all_members_moved;
use crate::moving::{Moving, kills_before};
use crate::names::names_moved;
use crate::stands::stands_moved;
use crate::tables::killers_of;
use smi_carried::Carried;
use smi_journal::SessionId;
use smi_log_front::{Front, front_suits};
use sml_outset::Outset;
use std::alloc::{AllocError, Global};

// How all stands.
fn outset_moved(
    alloc: Global,
    moving: &Moving<'_>,
    killers: &[Option<SessionId>],
) -> Result<Outset, AllocError>
    requires { AreKillersOf moving.now killers.now }
    ensures { IfOk result (λ x. x ≡ spec.outset_moved moving.now) }
{
    let stands = stands_moved(alloc, moving, killers)?;
    let members = all_members_moved(alloc, moving)?;
    Ok(Outset { stands, members })
}

// What goes along.
fn carried_moved(
    alloc: Global,
    moving: &Moving<'_>,
    killers: &[Option<SessionId>],
) -> Result<Carried, AllocError>
    requires { AreKillersOf moving.now killers.now }
    ensures { IfOk result (λ x. x ≡ carried.carried_moved moving.now) }
{
    let counts = all_counts_moved(alloc, moving, killers)?;
    let names = names_moved(alloc, moving)?;
    Ok(Carried { counts, names })
}

// The front, whether it suits or not.
fn front_with(
    alloc: Global,
    moving: &Moving<'_>,
    domain_sum: &[u8],
    killers: &[Option<SessionId>],
) -> Result<Front, AllocError>
    requires { AreKillersOf moving.now killers.now }
    ensures { IfOk result (λ f. f ≡ spec.front_moved moving.now domain_sum.now) }
{
    let domain_sum = Vec::from_slice(alloc, domain_sum)?;
    let front = moving.front;
    let log_sum = Vec::from_slice(alloc, &front.log_sum)?;
    let kills = kills_moved(alloc, moving, killers)?;
    let carried = carried_moved(alloc, moving, killers)?;
    let outset = outset_moved(alloc, moving, killers)?;
    Ok(Front {
        domain_sum,
        capacity: front.capacity,
        outset,
        carried,
        kills,
        log_sum,
    })
}

// A front, if it suits the new domain.
fn if_suiting(moving: &Moving<'_>, front: Front) -> Option<Front>
    ensures same { IfSome result (λ f. f ≡ front) }
    ensures suits { IfSome result (FrontSuits moving.now.new) }
    ensures none { IfNone result (FrontSuits moving.now.new front → ⊥) }
{
    if front_suits(moving.new, &front) {
        Some(front)
    } else {
        None
    }
}

/// The front of the log that goes on in another domain, by the SHA-1 of the canonical text of that domain: room and the
/// SHA-1 of the log before are those of the front of the old domain. None if it would not suit the new domain, as where
/// that front does not suit the old one, or where the sum is no SHA-1.
///
/// The cost is some look-ups by hash for each object, its parameters times their count, for each set the count of
/// sets and of objects, and that of `front_suits`. The error is out of memory.
pub fn front_moved(
    alloc: Global,
    moving: &Moving<'_>,
    domain_sum: &[u8],
) -> Result<Option<Front>, AllocError>
    ensures is { IfOk result (λ r. IfSome r (λ f. f ≡ spec.front_moved moving.now domain_sum.now)) }
    ensures suits { IfOk result (λ r. IfSome r (FrontSuits moving.now.new)) }
    ensures none { IfOk result (λ r. IfNone r
        (FrontSuits moving.now.new (spec.front_moved moving.now domain_sum.now) → ⊥)) }
{
    let killers = killers_of(alloc, moving.old.objects(), kills_before(moving))?;
    match front_with(alloc, moving, domain_sum, &killers) {
        Ok(front) => Ok(if_suiting(moving, front)),
        Err(error) => Err(error),
    }
}
