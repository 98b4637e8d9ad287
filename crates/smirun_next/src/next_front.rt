//! The front of the log that follows that of a core.
ghost use Rattle.std.specs.Prelude.{◌≡◌, ◌⊎◌, ℕ, IfNone, IfOk, IfSome, length};
ghost use Rattle.hex.specs.Hex.{encode_lower};
ghost use Rattle.sha1.specs.Sha1.{sha1};
ghost use Rattle.smi_log_front.specs.Suits.{FrontSuits};
ghost use Rattle.smi_live_carried.specs.TakingAlong.{AreTaken, NothingGoesAlong, all_counts_taken};
ghost use Rattle.smi_outset_core.specs.StandsNow.{IsOutsetOf};
ghost use Rattle.smirun_next.specs.Kills.{all_front_kills};
ghost use Rattle.smirun_next.specs.NextFront.{HasNoNext, IsNextFront, IsNextOf, killed_in_core};

use crate::kills::{killed_now, kills_now};
use smi_carried::Carried;
use smi_core::Core;
use smi_live_carried::{OverLogs, carried_of};
use smi_log_front::{Front, FrontKill, front_suits, sum_of};
use smi_outset_core::{outset_of, rests};
use sml_domain::Domain;
use std::alloc::{AllocError, Global};

/// What a log that follows another names: its domain and its capacity in the first line, and in the last of its front
/// the log before.
#[derive(Clone, Copy)]
pub struct NextNames<'a> {
    /// The canonical text of the domain.
    pub canonical: &'a [u8],
    /// How many requests wait at an object at most.
    pub capacity: usize,
    /// All bytes of the log before.
    pub log: &'a [u8],
}

// The SHA-1 of the text of the domain, and that of the log before.
#[derive(Drop)]
struct Sums {
    domain: Vec<u8>,
    log: Vec<u8>,
}

// The sums of what is named.
fn sums_of(alloc: Global, names: &NextNames<'_>) -> Result<Sums, AllocError>
    ensures domain { IfOk result (λ s. s.domain.items ≡ encode_lower (sha1 names.now.canonical.now)) }
    ensures log { IfOk result (λ s. s.log.items ≡ encode_lower (sha1 names.now.log.now)) }
{
    let domain = sum_of(alloc, names.canonical)?;
    let log = sum_of(alloc, names.log)?;
    Ok(Sums { domain, log })
}

// What goes along, and who is killed again.
#[derive(Drop)]
struct Left {
    carried: Carried,
    kills: Vec<FrontKill>,
}

// What a core has left to the next log. None if nothing goes along.
fn left_of(
    alloc: Global,
    declared: &Domain,
    core: &Core,
    over: &OverLogs<'_>,
) -> Result<Option<Left>, AllocError>
    ensures counts { IfOk result (λ r. IfSome r (λ x. x.carried.counts
        ≡ all_counts_taken (killed_in_core core.now) over.now.fates.counts (length declared.now.objects))) }
    ensures names { IfOk result (λ r. IfSome r (λ x.
        AreTaken over.now.told over.now.fates.watched x.carried.names)) }
    ensures kills { IfOk result (λ r. IfSome r (λ x. x.kills.items
        ≡ all_front_kills core.now.world.journal (length core.now.setup.domain.objects))) }
    ensures none { IfOk result (λ r. IfNone r (NothingGoesAlong declared.now (killed_in_core core.now) over.now)) }
{
    let killed = killed_now(alloc, core)?;
    let kills = kills_now(alloc, core)?;
    match carried_of(alloc, declared, over, &killed) {
        Ok(Some(carried)) => Ok(Some(Left { carried, kills })),
        Ok(None) => Ok(None),
        Err(error) => Err(error),
    }
}

// The front with how all stands in a core, and with what that has left.
fn front_with(
    alloc: Global,
    core: &Core,
    names: &NextNames<'_>,
    left: Left,
) -> Result<Front, AllocError>
    ensures domain_sum { IfOk result (λ f. f.domain_sum ≡ encode_lower (sha1 names.now.canonical.now)) }
    ensures capacity { IfOk result (λ f. f.capacity ≡ names.now.capacity) }
    ensures outset { IfOk result (λ f. IsOutsetOf core.now.setup.domain core.now.world.journal f.outset) }
    ensures carried { IfOk result (λ f. f.carried ≡ left.carried) }
    ensures kills { IfOk result (λ f. f.kills ≡ left.kills.items) }
    ensures log_sum { IfOk result (λ f. f.log_sum ≡ encode_lower (sha1 names.now.log.now)) }
{
    let Left { carried, kills } = left;
    let outset = outset_of(alloc, core)?;
    match sums_of(alloc, names) {
        Ok(Sums { domain, log }) => Ok(Front {
            domain_sum: domain,
            capacity: names.capacity,
            outset,
            carried,
            kills,
            log_sum: log,
        }),
        Err(error) => Err(error),
    }
}

// The front that is made of a core, whether it suits or not. None if nothing goes along.
fn made_front(
    alloc: Global,
    declared: &Domain,
    core: &Core,
    over: &OverLogs<'_>,
    names: &NextNames<'_>,
) -> Result<Option<Front>, AllocError>
    ensures some { IfOk result (λ r. IfSome r (IsNextOf declared.now core.now over.now
        names.now.canonical.now names.now.capacity names.now.log.now)) }
    ensures none { IfOk result (λ r. IfNone r (NothingGoesAlong declared.now (killed_in_core core.now) over.now)) }
{
    match left_of(alloc, declared, core, over) {
        Ok(Some(left)) => match front_with(alloc, core, names, left) {
            Ok(front) => Ok(Some(front)),
            Err(error) => Err(error),
        },
        Ok(None) => Ok(None),
        Err(error) => Err(error),
    }
}

// A front, if it suits the domain.
fn if_suiting(declared: &Domain, front: Front) -> Option<Front>
    ensures same { IfSome result (λ f. f ≡ front) }
    ensures suits { IfSome result (FrontSuits declared.now) }
    ensures none { IfNone result (FrontSuits declared.now front → ⊥) }
{
    if front_suits(declared, &front) {
        Some(front)
    } else {
        None
    }
}

/// The front of the log that follows the log of a manager, by the domain as it is declared, the manager's core, and what
/// it keeps over all its logs. None if all does not rest, if a request of a name is under way, or if the front would not
/// suit the domain.
///
/// The cost is that of the two texts which are named, the count of objects with their parameters and members, and the
/// square of the count of names. The error is out of memory.
pub fn front_after(
    alloc: Global,
    declared: &Domain,
    core: &Core,
    over: &OverLogs<'_>,
    names: &NextNames<'_>,
) -> Result<Option<Front>, AllocError>
    ensures some { IfOk result (λ r. IfSome r (IsNextFront declared.now core.now over.now
        names.now.canonical.now names.now.capacity names.now.log.now)) }
    ensures none { IfOk result (λ r. IfNone r (HasNoNext declared.now core.now over.now
        names.now.canonical.now names.now.capacity names.now.log.now)) }
{
    if !rests(core) {
        return Ok(None);
    }
    match made_front(alloc, declared, core, over, names) {
        Ok(Some(front)) => Ok(if_suiting(declared, front)),
        Ok(None) => Ok(None),
        Err(error) => Err(error),
    }
}
