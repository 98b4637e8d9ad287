//! What may be so of a ledger, by numbers.
ghost use Rattle.std.specs.Prelude.{◌<◌, length, IfSome};
ghost use Rattle.smi_ledger.specs.Tables.{IsKnown};

use crate::rows::are_objects;
use crate::runs::By;
use smi_journal::{Members, MoveReply, Sender, SessionId};
use smi_ledger::Ledger;
use sml_domain::{Domain, ObjId, SetId, StateId};

/// What may be so. All go by number.
#[derive(Clone, Copy)]
pub enum Fact {
    /// The object is in the state.
    InState(usize, usize),
    /// An action is open at the object.
    IsOpen(usize),
    /// The open action of the object was answered this number of times.
    Answers(usize, usize),
    /// The object waits.
    Waits(usize),
    /// The object was killed at the place.
    Killed(usize, usize),
    /// The object was not killed.
    IsAlive(usize),
    /// This number of requests of the sender were started at the object.
    Started(By, usize, usize),
    /// This number of posts of the first object to the second were accepted.
    Posted(usize, usize, usize),
    /// This number of requests were started at all.
    Starts(usize),
    /// For the first object the second is clear.
    IsClear(usize, usize),
    /// For the first object the second is not.
    IsBusy(usize, usize),
    /// The set has these members, in this order.
    Has(usize, &'static [usize]),
    /// When the open action of the object was answered at the place, the set had these members, in this order.
    Had(usize, usize, usize, &'static [usize]),
}

/// A sender of a domain, or None if the domain has no sender of this number.
pub fn sender_of(domain: &Domain, by: By) -> Option<Sender>
    ensures { IfSome result (IsKnown (length domain.now.objects)) }
{
    match by {
        By::Session(number) => Some(Sender::Operator(SessionId::new(number)?)),
        By::Object(number) => {
            let object = ObjId::new(number);
            if !domain.has(object) {
                return None;
            }
            Some(Sender::Object(object))
        }
    }
}

fn has_started(ledger: &Ledger, by: By, o: ObjId, count: usize) -> bool {
    match sender_of(ledger.domain(), by) {
        Some(sender) if ledger.domain().has(o) => ledger.started(&sender, o) == count,
        _ => false,
    }
}

// The members that sets had at an answer, where it holds them.
fn sets_at(answer: &MoveReply) -> Option<&Members> {
    match answer {
        MoveReply::Told(_, sets) => Some(sets),
        MoveReply::Read(_, sets) => Some(sets),
        MoveReply::Nobody(sets) => Some(sets),
        MoveReply::Changed => None,
    }
}

// Whether a set had these members at an answer.
fn had(ledger: &Ledger, answer: Option<&MoveReply>, set: usize, members: &[usize]) -> bool {
    let Some(answer) = answer else {
        return false;
    };
    match sets_at(answer) {
        Some(sets) => are_objects(sets.of(ledger.domain(), SetId::new(set)), members),
        None => false,
    }
}

// Whether this is so of an object alone, which the domain has.
fn is_so_at(ledger: &Ledger, fact: Fact, o: ObjId) -> bool
    requires { o < length ledger.now.domain.objects }
{
    match fact {
        Fact::InState(_, state) => ledger.state(o) == StateId::new(state),
        Fact::IsOpen(_) => ledger.is_open(o),
        Fact::Answers(_, count) => ledger.answers(o).len() == count,
        Fact::Waits(_) => ledger.waits(o),
        Fact::Killed(_, place) => ledger.killed(o) == Some(place),
        Fact::IsAlive(_) => ledger.killed(o).is_none(),
        Fact::Had(_, place, set, members) => {
            had(ledger, ledger.answers(o).get(place), set, members)
        }
        _ => false,
    }
}

// Whether this is so of two objects, which the domain has.
fn is_so_between(ledger: &Ledger, fact: Fact, a: ObjId, o: ObjId) -> bool
    requires sender { a < length ledger.now.domain.objects }
    requires within { o < length ledger.now.domain.objects }
{
    match fact {
        Fact::Posted(_, _, count) => ledger.posted(a, o) == count,
        Fact::IsClear(_, _) => ledger.is_clear(a, o),
        Fact::IsBusy(_, _) => !ledger.is_clear(a, o),
        _ => false,
    }
}

// The objects that a fact is of.
fn objects_of(fact: Fact) -> (usize, Option<usize>) {
    match fact {
        Fact::InState(o, _) => (o, None),
        Fact::IsOpen(o) => (o, None),
        Fact::Answers(o, _) => (o, None),
        Fact::Waits(o) => (o, None),
        Fact::Killed(o, _) => (o, None),
        Fact::IsAlive(o) => (o, None),
        Fact::Started(_, o, _) => (o, None),
        Fact::Posted(a, o, _) => (a, Some(o)),
        Fact::Starts(_) => (0, None),
        Fact::IsClear(a, o) => (a, Some(o)),
        Fact::IsBusy(a, o) => (a, Some(o)),
        Fact::Has(_, _) => (0, None),
        Fact::Had(o, _, _, _) => (o, None),
    }
}

/// Whether this is so of a ledger.
pub fn is_so(ledger: &Ledger, fact: Fact) -> bool {
    let (first, second) = objects_of(fact);
    let o = ObjId::new(first);
    if !ledger.domain().has(o) {
        return false;
    }
    match (fact, second.map(ObjId::new)) {
        (Fact::Starts(count), _) => ledger.starts() == count,
        (Fact::Has(set, members), _) => are_objects(ledger.members(SetId::new(set)), members),
        (Fact::Started(by, _, count), _) => has_started(ledger, by, o, count),
        (_, None) => is_so_at(ledger, fact, o),
        (_, Some(target)) => {
            ledger.domain().has(target) && is_so_between(ledger, fact, o, target)
        }
    }
}
