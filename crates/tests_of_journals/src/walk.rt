//! Walks of a task: its contacts in order, and how each is answered.
ghost use Rattle.std.specs.Prelude.{◌≡◌, IfSome, IsSomeAnd, IsTrue, length};
ghost use Rattle.smi_journal_entries.specs.Sets.{AreOf};
ghost use Rattle.smi_interp.specs.Expanded.{objects_by_names, posts_in};
ghost use Rattle.smi_interp.specs.Task.{WantsStates, WantsVerdicts};

use crate::beginnings::task_of;
use crate::boards::envelope_by;
use crate::changed_members::{Change, are_members, members_of};
use crate::rows::{Plain, are_objects, are_values, is_value, values_of};
use smi_interp::{
    Contact, ContactNames, Move, Post, Task, TurnRecord, Wanted as Asks, objects_for, posts_for,
};
use smi_journal::{Members, Reading, Verdict};
use sml_domain::{ActionId, Domain, ObjId, StateId};
use sml_load::domain_of;
use std::alloc::Global;

/// A post: its target, its action, and its arguments.
pub type Wanted = (usize, usize, &'static [Plain]);

/// What a task does next, and how it is answered. All go by number.
#[derive(Clone, Copy)]
pub enum Step {
    /// It gives a parameter a value.
    Sets(usize, Plain),
    /// It wants posts, and these verdicts answer it.
    Sends(&'static [Wanted], &'static [Verdict]),
    /// It wants to read objects, and these states answer it.
    Reads(&'static [usize], &'static [usize]),
    /// It ends in a state, or runs off its end.
    Ends(Option<usize>),
}

/// A task from its beginning to its end. How others have changed sets before; its object and the parameters of this;
/// the state in which it begins; its action and arguments; its steps; and the parameters that it leaves.
#[derive(Clone, Copy)]
pub struct Walk {
    /// What happens.
    pub name: &'static str,
    pub text: &'static [u8],
    pub changes: &'static [Change],
    pub object: usize,
    pub params: &'static [Plain],
    pub state: usize,
    pub action: usize,
    pub given: &'static [Plain],
    pub steps: &'static [Step],
    pub left: &'static [Plain],
}

fn is_post(post: &Post, wanted: Wanted) -> bool {
    let (target, action, args) = wanted;
    post.target.get() == target
        && post.action.get() == action
        && are_values(post.args.values(), args)
}

fn are_posts(posts: &[Post], wanted: &[Wanted]) -> bool {
    posts.len() == wanted.len()
        && posts
            .iter()
            .zip(wanted.iter())
            .all(|(post, wanted)| is_post(post, *wanted))
}

fn are_readings(readings: &[Reading], objects: &[usize], states: &[usize]) -> bool {
    if readings.len() != objects.len() || readings.len() != states.len() {
        return false;
    }
    for (i, reading) in readings.iter().enumerate() {
        if reading.object.get() != objects[i] || reading.state.get() != states[i] {
            return false;
        }
    }
    true
}

fn is_end(wanted: Option<usize>, state: Option<StateId>) -> bool {
    match (wanted, state) {
        (None, None) => true,
        (Some(number), Some(s)) => s.get() == number,
        _ => false,
    }
}

// The posts of a `do`, asked for a second time where memory was refused.
fn posts_at_last(
    alloc: Global,
    domain: &Domain,
    members: &Members,
    wanted: &Asks,
) -> Option<Vec<Post>>
    ensures { IfSome result (λ posts. posts.items ≡ posts_in domain.now members.now wanted.now) }
{
    match posts_for(alloc, domain, members, wanted) {
        Ok(posts) => Some(posts),
        Err(_) => posts_for(alloc, domain, members, wanted).ok(),
    }
}

// The objects of a condition, asked for likewise.
fn objects_at_last(
    alloc: Global,
    domain: &Domain,
    members: &Members,
    names: &ContactNames,
) -> Option<Vec<ObjId>>
    requires { AreOf domain.now members.now }
    ensures { IfSome result (λ objects. objects.items ≡ objects_by_names domain.now members.now names.now) }
{
    match objects_for(alloc, domain, members, names) {
        Ok(objects) => Some(objects),
        Err(_) => objects_for(alloc, domain, members, names).ok(),
    }
}

fn wants_posts(
    alloc: Global,
    domain: &Domain,
    members: &Members,
    asks: &Asks,
    wanted: &[Wanted],
) -> bool {
    match posts_at_last(alloc, domain, members, asks) {
        Some(posts) => are_posts(&posts, wanted),
        None => false,
    }
}

fn names_objects(
    alloc: Global,
    domain: &Domain,
    members: &Members,
    names: &ContactNames,
    numbers: &[usize],
) -> bool
    requires { AreOf domain.now members.now }
{
    match objects_at_last(alloc, domain, members, names) {
        Some(objects) => are_objects(&objects, numbers),
        None => false,
    }
}

// Whether a contact is that of a step, where sets have these members.
fn is_contact(
    alloc: Global,
    domain: &Domain,
    members: &Members,
    contact: &Contact,
    step: Step,
) -> bool
    requires { AreOf domain.now members.now }
{
    match (contact, step) {
        (Contact::Local { param, value }, Step::Sets(number, plain)) => {
            param.get() == number && is_value(value, plain)
        }
        (Contact::Send(asks), Step::Sends(wanted, _)) => {
            wants_posts(alloc, domain, members, asks, wanted)
        }
        (Contact::Read(names), Step::Reads(numbers, _)) => {
            names_objects(alloc, domain, members, names, numbers)
        }
        (Contact::End(state), Step::Ends(wanted)) => is_end(wanted, *state),
        _ => false,
    }
}

// The same, where sets were changed so.
fn is_contact_after(
    alloc: Global,
    domain: &Domain,
    changes: &[Change],
    contact: &Contact,
    step: Step,
) -> bool {
    match members_of(alloc, domain, changes) {
        Some(members) => is_contact(alloc, domain, &members, contact, step),
        None => false,
    }
}

// Whether the task asks for what the step does.
fn asks(alloc: Global, task: &mut Task, changes: &[Change], step: Step) -> bool {
    match task.advance() {
        Ok(contact) => is_contact_after(alloc, task.domain(), changes, &contact, step),
        Err(_) => false,
    }
}

fn asks_twice(alloc: Global, task: &mut Task, changes: &[Change], step: Step) -> bool {
    asks(alloc, task, changes, step) && asks(alloc, task, changes, step)
}

// Whether the task waits for `count` verdicts, where sets have these members.
fn wants_verdicts(alloc: Global, task: &Task, members: &Members, count: usize) -> bool
    ensures { IsTrue result → IsSomeAnd task.now.pending (WantsVerdicts task.now.domain members.now count) }
{
    match task.pending() {
        Some(Contact::Send(wanted)) => {
            match posts_at_last(alloc, task.domain(), members, wanted) {
                Some(posts) => posts.len() == count,
                None => false,
            }
        }
        _ => false,
    }
}

/// Whether the task waits for as many verdicts as these, and takes them, where sets were changed so.
pub fn is_sent(alloc: Global, task: &mut Task, changes: &[Change], verdicts: &[Verdict]) -> bool {
    let Some(members) = members_of(alloc, task.domain(), changes) else {
        return false;
    };
    if !wants_verdicts(alloc, task, &members, verdicts.len()) {
        return false;
    }
    task.sent(verdicts, members);
    true
}

fn states_of(alloc: Global, numbers: &[usize]) -> Option<Vec<StateId>> {
    let mut states = Vec::new(alloc);
    for number in numbers {
        states.push(StateId::new(*number)).ok()?;
    }
    Some(states)
}

// Whether the task waits for `count` states, where sets have these members.
fn wants_states(alloc: Global, task: &Task, members: &Members, count: usize) -> bool
    requires { AreOf task.now.domain members.now }
    ensures { IsTrue result → IsSomeAnd task.now.pending (WantsStates task.now.domain members.now count) }
{
    match task.pending() {
        Some(Contact::Read(names)) => {
            match objects_at_last(alloc, task.domain(), members, names) {
                Some(objects) => objects.len() == count,
                None => false,
            }
        }
        _ => false,
    }
}

/// Whether the task waits for as many states as these, and takes them, where sets were changed so.
pub fn is_told(alloc: Global, task: &mut Task, changes: &[Change], states: &[StateId]) -> bool {
    let Some(members) = members_of(alloc, task.domain(), changes) else {
        return false;
    };
    if !wants_states(alloc, task, &members, states.len()) {
        return false;
    }
    task.tell(states, members);
    true
}

fn is_told_numbers(alloc: Global, task: &mut Task, changes: &[Change], numbers: &[usize]) -> bool {
    match states_of(alloc, numbers) {
        Some(states) => is_told(alloc, task, changes, &states),
        None => false,
    }
}

fn waits_for(alloc: Global, task: &Task, changes: &[Change], step: Step) -> bool {
    match task.pending() {
        Some(contact) => is_contact_after(alloc, task.domain(), changes, contact, step),
        None => false,
    }
}

// Whether the task makes the step. What waits for an answer, and the end, are asked for twice; behind an
// answer it waits for nothing, nor behind a set, and for ever behind the end.
fn makes(alloc: Global, task: &mut Task, changes: &[Change], step: Step) -> bool {
    match step {
        Step::Sets(_, _) => asks(alloc, task, changes, step) && task.pending().is_none(),
        Step::Sends(_, verdicts) => {
            asks_twice(alloc, task, changes, step)
                && is_sent(alloc, task, changes, verdicts)
                && task.pending().is_none()
        }
        Step::Reads(_, states) => {
            asks_twice(alloc, task, changes, step)
                && is_told_numbers(alloc, task, changes, states)
                && task.pending().is_none()
        }
        Step::Ends(_) => {
            asks_twice(alloc, task, changes, step) && waits_for(alloc, task, changes, step)
        }
    }
}

fn are_verdicts(verdicts: &[Verdict], told: &[Verdict]) -> bool {
    verdicts.len() == told.len() && verdicts.iter().zip(told.iter()).all(|(x, y)| *x == *y)
}

// Whether a move that was recorded is that of a step, where sets were changed so.
fn is_made(alloc: Global, domain: &Domain, changes: &[Change], made: &Move, step: Step) -> bool {
    match (made, step) {
        (Move::Set { param, value }, Step::Sets(number, plain)) => {
            param.get() == number && is_value(value, plain)
        }
        (
            Move::Sent {
                wanted: asks,
                verdicts,
                members,
            },
            Step::Sends(wanted, told),
        ) => {
            are_members(alloc, domain, members, changes)
                && wants_posts(alloc, domain, members, asks, wanted)
                && are_verdicts(verdicts, told)
        }
        (Move::Saw { readings, members }, Step::Reads(objects, states)) => {
            are_members(alloc, domain, members, changes) && are_readings(readings, objects, states)
        }
        _ => false,
    }
}

// Whether the record is that of the walk, whose last step is the end and no move.
fn is_recorded(alloc: Global, domain: &Domain, turn: &TurnRecord, walk: &Walk) -> bool {
    turn.object.get() == walk.object
        && turn.state.get() == walk.state
        && turn.letter.action.get() == walk.action
        && are_values(&turn.params, walk.params)
        && are_values(turn.letter.args.values(), walk.given)
        && turn.moves.iter().zip(walk.steps.iter()).all(|(made, step)| is_made(
            alloc,
            domain,
            walk.changes,
            made,
            *step,
        ))
}

// A task in the hands of another worker.
fn handed(task: Task) -> Task {
    task
}

// The task of the walk, begun for the first session.
fn begun(alloc: Global, walk: &Walk) -> Option<Task> {
    let domain = domain_of(alloc, walk.text).ok()?;
    let params = values_of(alloc, walk.params)?;
    let envelope = envelope_by(alloc, 1, ActionId::new(walk.action), walk.given)?;
    let object = ObjId::new(walk.object);
    let state = StateId::new(walk.state);
    task_of(alloc, domain, object, state, &params, envelope)
}

// Whether the task recorded the moves of the walk, and leaves its parameters.
fn is_left(alloc: Global, task: Task, walk: &Walk) -> bool {
    let recorded = is_recorded(alloc, task.domain(), task.turn(), walk);
    let all = task.turn().moves.len() == walk.steps.len().saturating_sub(1);
    let left = task.into_params();
    recorded && all && are_values(&left, walk.left)
}

// Whether the task makes the steps of a walk as above.
fn is_made_by(alloc: Global, task: Task, walk: &Walk) -> bool {
    let mut task = task;
    let mut made = true;
    for step in walk.steps {
        made = made && makes(alloc, &mut task, walk.changes, *step);
        task = handed(task);
    }
    is_left(alloc, task, walk) && made
}

/// Whether the task of a walk makes its steps, each in the hands of another worker, records them, and
/// leaves the parameters.
pub fn is_walked(alloc: Global, walk: &Walk) -> bool {
    match begun(alloc, walk) {
        Some(task) => is_made_by(alloc, task, walk),
        None => false,
    }
}

// The task of the walk, asked for a second time where it was refused.
fn begun_at_last(alloc: Global, walk: &Walk) -> Option<Task> {
    match begun(alloc, walk) {
        Some(task) => Some(task),
        None => begun(alloc, walk),
    }
}

// Whether the task makes the step, at the second time at the latest.
fn makes_at_last(alloc: Global, task: &mut Task, changes: &[Change], step: Step) -> bool {
    if !matches!(step, Step::Sets(_, _)) {
        // What waits for an answer is asked for again below.
        let _ = asks(alloc, task, changes, step);
    }
    makes(alloc, task, changes, step) || makes(alloc, task, changes, step)
}

fn makes_all_at_last(alloc: Global, task: &mut Task, walk: &Walk) -> bool {
    for step in walk.steps {
        if !makes_at_last(alloc, task, walk.changes, *step) {
            return false;
        }
    }
    true
}

/// Whether the task of a walk makes its steps and records them, though memory is refused once.
pub fn is_walked_at_last(alloc: Global, walk: &Walk) -> bool {
    match begun_at_last(alloc, walk) {
        Some(task) => {
            let mut task = task;
            let made = makes_all_at_last(alloc, &mut task, walk);
            is_left(alloc, task, walk) && made
        }
        None => false,
    }
}
