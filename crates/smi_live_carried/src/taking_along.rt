//! What goes along into the next log.
ghost use Rattle.std.specs.Prelude.{◌≡◌, ◌≢◌, ◌<◌, ◌++◌, ◌∷◌, [], ℕ, IfNone, IfOk, IfSome, List, MatchOption, Some, false, get_or, length, slice_get};
ghost use Rattle.smi_carried.specs.Carried.{OnceView};
ghost use Rattle.smi_carried.specs.Suits.{CarriedSuits};
ghost use Rattle.smi_live_once.specs.Carrying.{past_text};
ghost use Rattle.smi_live_once.specs.Tables.{OnceTold};
ghost use Rattle.smi_live_carried.specs.TakingAlong as taken;
ghost use Rattle.smi_request_fates.specs.Kept.{WatchedView};
ghost use Rattle.smi_live_carried.specs.TakingAlong.{AreTaken, IsNotTaken, IsTaken, IsWhat, NothingGoesAlong, TakesNumbers, place_taken, stood_after};

use crate::over_logs::OverLogs;
use smi_carried::{Carried, CarriedCounts, CarriedOnce, CarriedPlace, carried_suits};
use smi_live_once::Known;
use smi_request_fates::{Came, Counts, Fate, Stands};
use sml_domain::{Domain, ObjId};
use std::alloc::{AllocError, Global};

// The kill of an object that is killed.
fn kill_of(is_killed: bool) -> u64
    ensures { result ≡ taken.kill_of is_killed }
{
    if is_killed { 1 } else { 0 }
}

// How often an object started and ended, without its kill: a line of the next log kills it again.
fn counts_taken(is_killed: bool, counts: Option<Counts>) -> CarriedCounts
    ensures { result ≡ taken.counts_taken is_killed counts }
{
    match counts {
        Some(counts) => CarriedCounts {
            started: counts.started,
            ended: counts.ended.saturating_sub(kill_of(is_killed)),
        },
        None => CarriedCounts {
            started: 0,
            ended: 0,
        },
    }
}

// Whether an object is killed.
fn is_killed(killed: &[bool], o: ObjId) -> bool
    ensures { result ≡ get_or killed.now o false }
{
    match killed.get(o.get()) {
        Some(is_killed) => *is_killed,
        None => false,
    }
}

// What goes along of the counts of an object.
fn counts_at(over: &OverLogs<'_>, killed: &[bool], o: ObjId) -> CarriedCounts
    ensures { result ≡ taken.counts_taken_at killed.now over.now.fates.counts o }
{
    counts_taken(is_killed(killed, o), over.counts(o))
}

// What goes along of the counts of all objects.
#[tactic(auto, using(crate::proofs::Taking::one_more))]
fn all_counts_of(
    alloc: Global,
    domain: &Domain,
    over: &OverLogs<'_>,
    killed: &[bool],
) -> Result<Vec<CarriedCounts>, AllocError>
    ensures { IfOk result (λ v. v.items
        ≡ taken.all_counts_taken killed.now over.now.fates.counts (length domain.now.objects)) }
{
    let mut counts = Vec::new(alloc);
    for o in 0..domain.objects() {
        counts.push(counts_at(over, killed, ObjId::new(o)))?;
    }
    Ok(counts)
}

// An answer without its line feed, if it ends with one.
fn without_feed(answer: &[u8]) -> Option<&[u8]>
    ensures { MatchOption result ((what : List ℕ) → answer.now ≢ what ++ 10 ∷ [])
        (λ what. answer.now ≡ what.now ++ 10 ∷ []) }
{
    answer.strip_suffix(b"\n".as_slice())
}

// What stands after the word `past` of an answer, if it is one of a request that a log before had.
#[tactic(auto, using(crate::proofs::Ends::after_word))]
fn after_past(answer: &[u8]) -> Option<&[u8]>
    ensures { MatchOption result ((what : List ℕ) → answer.now ≢ past_text what)
        (λ what. answer.now ≡ past_text what.now) }
{
    match without_feed(answer) {
        Some(line) => line.strip_prefix(b"past ".as_slice()),
        None => None,
    }
}

// What became of a request that was told so, if it is no more under way.
fn what_of<'a>(came: Came, answer: &'a [u8]) -> Option<&'a [u8]>
    ensures { MatchOption result ((what : List ℕ) → IsWhat came answer.now what → ⊥)
        (λ what. IsWhat came answer.now what.now) }
{
    match came {
        Came::Accepted(Fate::Waits | Fate::Open) => None,
        Came::Accepted(Fate::Ended(_)) => Some(b"ended"),
        Came::Accepted(Fate::Skipped(_)) => Some(b"skipped"),
        Came::Accepted(Fate::Killed(_)) => Some(b"killed"),
        Came::Refused(_) => without_feed(answer),
        Came::Past(_) => after_past(answer),
    }
}

// How the object of a request stood right after it.
fn stood_in(came: Came) -> Option<Stands>
    ensures { result ≡ stood_after came }
{
    match came {
        Came::Accepted(Fate::Waits | Fate::Open) => None,
        Came::Accepted(Fate::Ended(at) | Fate::Skipped(at) | Fate::Killed(at)) => Some(at),
        Came::Refused(at) | Came::Past(at) => at,
    }
}

// The place of a request of an object.
fn place_of(object: ObjId, came: Came) -> Option<CarriedPlace>
    ensures { result ≡ place_taken object (stood_after came) }
{
    match stood_in(came) {
        Some(at) => Some(CarriedPlace {
            object,
            state: at.state,
            version: at.ended,
        }),
        None => None,
    }
}

// What goes along of a name.
fn once_of(
    alloc: Global,
    known: Known<'_>,
    place: Option<CarriedPlace>,
    what: &[u8],
) -> Result<CarriedOnce, AllocError>
    ensures { IfOk result (λ x. x ≡ record {
      name = known.entry.name.now;
      number = known.entry.number;
      place = place;
      what = what.now;
    }) }
{
    let name = Vec::from_slice(alloc, known.name)?;
    let what = Vec::from_slice(alloc, what)?;
    Ok(CarriedOnce {
        name,
        number: known.number,
        place,
        what,
    })
}

// What goes along of the name at a place. None if its request is under way.
#[tactic(auto, using(crate::proofs::Taking::nothing_at))]
fn once_at(
    alloc: Global,
    over: &OverLogs<'_>,
    place: usize,
) -> Result<Option<CarriedOnce>, AllocError>
    requires { place < length over.now.told }
    ensures some { IfOk result (λ r. IfSome r (λ x. (t : OnceTold) → slice_get over.now.told place ≡ Some t
        → (w : WatchedView) × (slice_get over.now.fates.watched place ≡ Some w) × IsTaken t w x)) }
    ensures none { IfOk result (λ r. IfNone r (IsNotTaken over.now.told over.now.fates.watched place)) }
{
    let known = over.told().at(place);
    let Some(watched) = over.watched(place) else {
        return Ok(None);
    };
    match what_of(watched.came, known.answer) {
        Some(what) => match once_of(alloc, known, place_of(watched.object, watched.came), what) {
            Ok(once) => Ok(Some(once)),
            Err(error) => Err(error),
        },
        None => Ok(None),
    }
}

// What goes along of all names. None if a request is under way.
#[tactic(auto, using(crate::proofs::Taking::taken_more))]
fn all_once_of(alloc: Global, over: &OverLogs<'_>) -> Result<Option<Vec<CarriedOnce>>, AllocError>
    ensures some { IfOk result (λ r. IfSome r (λ v. AreTaken over.now.told over.now.fates.watched v.items)) }
    ensures none { IfOk result (λ r. IfNone r ((xs : List OnceView)
        → AreTaken over.now.told over.now.fates.watched xs → ⊥)) }
{
    let mut names = Vec::new(alloc);
    for place in 0..over.told().names() {
        match once_at(alloc, over, place)? {
            Some(once) => names.push(once)?,
            None => return Ok(None),
        }
    }
    Ok(Some(names))
}

// What goes along, if it may.
fn if_it_suits(domain: &Domain, carried: Carried) -> Option<Carried>
    ensures same { IfSome result (λ c. c ≡ carried) }
    ensures suits { IfSome result (CarriedSuits domain.now) }
    ensures none { IfNone result (CarriedSuits domain.now carried → ⊥) }
{
    if carried_suits(domain, &carried) {
        Some(carried)
    } else {
        None
    }
}

/// What goes along into the next log: the counts of all logs, and the last request of each name, in their order. Of the
/// objects these are killed. None if a request of a name is under way, or if what would go along does not suit the
/// domain.
///
/// The cost is the count of objects, and the square of the count of names. The error is out of memory.
#[tactic(auto, using(crate::proofs::Taking::taken_numbers))]
pub fn carried_of(
    alloc: Global,
    domain: &Domain,
    over: &OverLogs<'_>,
    killed: &[bool],
) -> Result<Option<Carried>, AllocError>
    ensures counts { IfOk result (λ r. IfSome r (λ c. c.counts
        ≡ taken.all_counts_taken killed.now over.now.fates.counts (length domain.now.objects))) }
    ensures names { IfOk result (λ r. IfSome r (λ c. AreTaken over.now.told over.now.fates.watched c.names)) }
    ensures numbers { IfOk result (λ r. IfSome r (TakesNumbers over.now)) }
    ensures suits { IfOk result (λ r. IfSome r (CarriedSuits domain.now)) }
    ensures none { IfOk result (λ r. IfNone r (NothingGoesAlong domain.now killed.now over.now)) }
{
    let counts = all_counts_of(alloc, domain, over, killed)?;
    match all_once_of(alloc, over)? {
        Some(names) => Ok(if_it_suits(domain, Carried { counts, names })),
        None => Ok(None),
    }
}
