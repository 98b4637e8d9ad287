//! Entries that are added to a ledger. Each function answers false if the entry is not an entry of the domain, if it
//! may not be added there, and if memory is refused.
ghost use Rattle.std.specs.Prelude.{◌≡◌, ◌<◌, IfSome, length};
ghost use Rattle.smi_journal_entries.specs.Sets as says;

use crate::facts::sender_of;
use crate::rows::{Plain, args_of};
use crate::runs::{By, Line};
use smi_journal::{
    ActionEnd, Args, Cause, Envelope, Members, Reading, Readings, Sender, SessionId, Verdict,
};
use smi_ledger::Ledger;
use sml_domain::{ActionId, ObjId, SetId, StateId};
use std::alloc::Global;

fn readings_of(alloc: Global, rows: &[(usize, usize)]) -> Option<Readings> {
    let mut list = Vec::new(alloc);
    for (object, state) in rows {
        let object = ObjId::new(*object);
        let state = StateId::new(*state);
        list.push(Reading { object, state }).ok()?;
    }
    Readings::new(alloc, list).ok()
}

// The envelope of a request with its number, its action and its arguments.
fn envelope_of(alloc: Global, sender: Sender, request: (u64, usize, &[Plain])) -> Option<Envelope>
    ensures { IfSome result (λ e. e.sender ≡ sender) }
{
    let (number, action, given) = request;
    let args = args_of(alloc, given)?;
    let mut envelope = Envelope::new(sender, ActionId::new(action), args).ok()?;
    envelope.set_number(number);
    Some(envelope)
}

// A start, with its number, its action and its arguments.
fn starts(
    alloc: Global,
    ledger: &mut Ledger,
    o: ObjId,
    by: By,
    request: (u64, usize, &[Plain]),
) -> bool {
    if ledger.hold(2).is_err() {
        return false;
    }
    let Some(sender) = sender_of(ledger.domain(), by) else {
        return false;
    };
    if !ledger.domain().has(o) || ledger.opened(o).is_some() {
        return false;
    }
    match envelope_of(alloc, sender, request) {
        Some(envelope) => {
            let letters = envelope.into_letters();
            ledger.add_start(o, letters.journal, letters.slot);
            true
        }
        None => false,
    }
}

// Arguments, with the members that sets have now.
fn args_now(alloc: Global, ledger: &Ledger, given: &[Plain]) -> Option<(Args, Members)>
    ensures { IfSome result (λ r. r.1 ≡ says.sets_after ledger.now.domain ledger.now.journal) }
{
    let args = args_of(alloc, given)?;
    let sets = ledger.sets().share().ok()?;
    Some((args, sets))
}

// A post to a target, with its action and its arguments.
fn posts(
    alloc: Global,
    ledger: &mut Ledger,
    o: ObjId,
    target: ObjId,
    request: (Verdict, usize, &[Plain]),
) -> bool {
    let (verdict, action, given) = request;
    if !ledger.domain().has(o) || !ledger.domain().has(target) {
        return false;
    }
    if ledger.hold(1).is_err() || ledger.hold_answers(o, 1).is_err() {
        return false;
    }
    match args_now(alloc, ledger, given) {
        Some((args, sets)) => {
            ledger.add_post(o, target, verdict, ActionId::new(action), args, sets);
            true
        }
        None => false,
    }
}

fn waits(ledger: &mut Ledger, o: ObjId) -> bool {
    if !ledger.domain().has(o) || ledger.hold(1).is_err() {
        return false;
    }
    ledger.add_wait(o);
    true
}

// The readings, for two owners, with the members that sets have now.
fn readings_now(
    alloc: Global,
    ledger: &Ledger,
    rows: &[(usize, usize)],
) -> Option<(Readings, Readings, Members)>
    ensures same { IfSome result (λ r. r.1 ≡ r.0) }
    ensures sets { IfSome result (λ r. r.2 ≡ says.sets_after ledger.now.domain ledger.now.journal) }
{
    let readings = readings_of(alloc, rows)?;
    let kept = readings.share().ok()?;
    let sets = ledger.sets().share().ok()?;
    Some((readings, kept, sets))
}

fn sees(alloc: Global, ledger: &mut Ledger, o: ObjId, rows: &[(usize, usize)]) -> bool {
    if !ledger.domain().has(o) {
        return false;
    }
    if ledger.hold(1).is_err() || ledger.hold_answers(o, 1).is_err() {
        return false;
    }
    match readings_now(alloc, ledger, rows) {
        Some((readings, kept, sets)) => {
            ledger.add_seen(o, readings, kept, sets);
            true
        }
        None => false,
    }
}

// An object puts a member into a set, or takes it out.
fn changes(
    alloc: Global,
    ledger: &mut Ledger,
    o: ObjId,
    add: bool,
    change: (ObjId, SetId),
) -> bool {
    let (member, set) = change;
    if !ledger.domain().has(o) || !ledger.domain().has(member) {
        return false;
    }
    if ledger.hold(1).is_err() || ledger.hold_answers(o, 1).is_err() {
        return false;
    }
    match ledger
        .sets()
        .with_change(alloc, ledger.domain(), add, member, set)
    {
        Ok(sets) if add => {
            ledger.add_insert(o, member, set, sets);
            true
        }
        Ok(sets) => {
            ledger.add_remove(o, member, set, sets);
            true
        }
        Err(_) => false,
    }
}

// A set has no member to which an object could post.
fn finds_none(ledger: &mut Ledger, o: ObjId, set: SetId) -> bool {
    if !ledger.domain().has(o) {
        return false;
    }
    if ledger.hold(1).is_err() || ledger.hold_answers(o, 1).is_err() {
        return false;
    }
    match ledger.sets().share() {
        Ok(sets) => {
            ledger.add_none(o, set, sets);
            true
        }
        Err(_) => false,
    }
}

// An end, which takes no memory.
fn ends(ledger: &mut Ledger, o: ObjId, how: ActionEnd) -> bool {
    if !ledger.domain().has(o) || !ledger.is_open(o) {
        return false;
    }
    ledger.add_end(o, how);
    true
}

// A kill, which takes no memory if an action is open.
fn kills(ledger: &mut Ledger, o: ObjId, cause: Cause) -> bool {
    if !ledger.domain().has(o) || ledger.killed(o).is_some() {
        return false;
    }
    if !ledger.is_open(o) && ledger.hold(1).is_err() {
        return false;
    }
    ledger.add_kill(o, cause);
    true
}

fn kills_by(ledger: &mut Ledger, o: ObjId, session: u8) -> bool {
    match SessionId::new(session) {
        Some(session) => kills(ledger, o, Cause::By(session)),
        None => false,
    }
}

/// Whether an entry was added.
pub fn adds(alloc: Global, ledger: &mut Ledger, line: Line) -> bool {
    match line {
        Line::Start(o, by, number, action, given) => {
            starts(alloc, ledger, ObjId::new(o), by, (number, action, given))
        }
        Line::Post(o, target, verdict, action, given) => posts(
            alloc,
            ledger,
            ObjId::new(o),
            ObjId::new(target),
            (verdict, action, given),
        ),
        Line::Wait(o) => waits(ledger, ObjId::new(o)),
        Line::Seen(o, rows) => sees(alloc, ledger, ObjId::new(o), rows),
        Line::End(o, state) => ends(ledger, ObjId::new(o), ActionEnd::State(StateId::new(state))),
        Line::Skip(o) => ends(ledger, ObjId::new(o), ActionEnd::Skipped),
        Line::Kill(o, session) => kills_by(ledger, ObjId::new(o), session),
        Line::Fault(o) => kills(ledger, ObjId::new(o), Cause::Fault),
        Line::Insert(o, member, set) => changes(
            alloc,
            ledger,
            ObjId::new(o),
            true,
            (ObjId::new(member), SetId::new(set)),
        ),
        Line::Remove(o, member, set) => changes(
            alloc,
            ledger,
            ObjId::new(o),
            false,
            (ObjId::new(member), SetId::new(set)),
        ),
        Line::Empty(o, set) => finds_none(ledger, ObjId::new(o), SetId::new(set)),
    }
}

/// Whether these entries were added, one after another.
pub fn adds_all(alloc: Global, ledger: &mut Ledger, lines: &[Line]) -> bool {
    for line in lines {
        if !adds(alloc, ledger, *line) {
            return false;
        }
    }
    true
}
