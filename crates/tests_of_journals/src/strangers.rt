//! Tasks that never were, or no longer are, those of their object's open action.
ghost use Rattle.std.specs.Prelude.{◌≡◌, ◌<◌, IfSome, IsSome, length};
ghost use Rattle.std.specs.Arc.{arc_value};
ghost use Rattle.smi_board.specs.Refusals.{is_operator};

use crate::acts::{Made, acts, acts_and_stays, contact, hand_back, sets_next, start};
use crate::beginnings::task_of;
use crate::boards::{board_of, envelope_of, fitting};
use crate::domains::NOBODY;
use crate::requests::Asked;
use smi_board::{Board, ContactError, Started};
use smi_interp::Task;
use smi_journal::SessionId;
use smi_mail_plain::PlainMail;
use sml_domain::{Domain, ObjId};
use sml_load::domain_of;
use std::alloc::Global;
use std::sync::Arc;
use test_domains::{COUNTER, SUPPLIES};

const SHOW: Asked = (1, "SHOW", &[]);

const GO: Asked = (1, "GO", &[]);

const CONFIGURE: Asked = (1, "CONFIGURE", &[]);

// Whether a task is refused so, both if it is submitted and if it is put back.
fn is_refused(board: &mut Board<PlainMail>, task: Task, wanted: ContactError) -> bool
    requires domain { task.domain ≡ board.old.domain }
    requires within { task.turn.object < length board.old.domain.objects }
    requires waits { IsSome task.pending }
    ensures { board.new.domain ≡ board.old.domain }
{
    let mut place = None;
    let first = contact(board, &mut place, task).err();
    drop(place);
    match first {
        Some((first, task)) => hand_back(board, task) == Some(wanted) && first == wanted,
        None => false,
    }
}

/// Whether a request of an operator is taken.
pub fn asks(
    alloc: Global,
    domain: &Domain,
    board: &mut Board<PlainMail>,
    o: ObjId,
    asked: Asked,
) -> bool
    requires within { o < length board.old.domain.objects }
    requires domain { board.old.domain ≡ domain.now }
    ensures { board.new.domain ≡ board.old.domain }
{
    match fitting(alloc, domain, o, asked) {
        Some(envelope) => board.request(o, envelope).ok().is_some(),
        None => false,
    }
}

// A task that is made by hand of an object in its present state, for a request under the number 0.
fn made_by_hand(
    alloc: Global,
    domain: &Arc<Domain>,
    board: &Board<PlainMail>,
    o: ObjId,
    asked: Asked,
) -> Option<Task>
    requires { o < length board.now.domain.objects }
    ensures { IfSome result (λ t. (t.domain ≡ arc_value domain.now) × (t.turn.object ≡ o)) }
{
    let shared = Arc::try_clone(domain).ok()?;
    let envelope = envelope_of(alloc, domain, asked)?;
    task_of(alloc, shared, o, board.state(o), board.params(o), envelope)
}

// A task that is made by hand as above, and asks for something.
fn asking_by_hand(
    alloc: Global,
    domain: &Arc<Domain>,
    board: &Board<PlainMail>,
    o: ObjId,
    asked: Asked,
) -> Option<Task>
    requires { o < length board.now.domain.objects }
    ensures domain { IfSome result (λ t. t.domain ≡ arc_value domain.now) }
    ensures object { IfSome result (λ t. t.turn.object ≡ o) }
    ensures waits { IfSome result (λ t. IsSome t.pending) }
{
    let made = made_by_hand(alloc, domain, board, o, asked)?;
    let mut task = made;
    match sets_next(&mut task) {
        Some(false) => Some(task),
        _ => {
            drop(task);
            None
        }
    }
}

/// What becomes of the first task of a request before a second one is submitted.
#[derive(Clone, Copy)]
pub enum First {
    /// It makes these moves, and is in the board's hands then, or ended.
    IsGone(&'static [Made]),
    /// It makes these moves, and is dropped then: it is out for ever.
    IsLost(&'static [Made]),
    /// It makes these moves and is ended then, and its object starts the next request.
    IsOver(&'static [Made]),
}

/// A request, of the second object of a domain, of which there are two tasks.
#[derive(Clone, Copy)]
pub struct SecondTask {
    /// What happens to the first one.
    pub name: &'static str,
    text: &'static [u8],
    asked: Asked,
    first: First,
}

/// Second tasks that made no move: the first one is kept, or the journal shows what it did, or its action is ended.
pub const SECOND_TASKS: &[SecondTask] = &[
    SecondTask {
        name: "the first task is kept",
        text: COUNTER,
        asked: SHOW,
        first: First::IsGone(&[Made::Shelved]),
    },
    SecondTask {
        name: "the first task has posted, and is lost",
        text: COUNTER,
        asked: SHOW,
        first: First::IsLost(&[Made::Posted]),
    },
    SecondTask {
        name: "the first task is ended",
        text: COUNTER,
        asked: SHOW,
        first: First::IsGone(&[Made::Posted, Made::Ended]),
    },
    SecondTask {
        name: "the first task is ended, and the next request is started",
        text: COUNTER,
        asked: SHOW,
        first: First::IsOver(&[Made::Posted, Made::Ended]),
    },
    // Nothing was posted to a set without members, and the journal shows this.
    SecondTask {
        name: "the first task has sent to nobody, and is lost",
        text: NOBODY,
        asked: GO,
        first: First::IsLost(&[Made::Posted]),
    },
    SecondTask {
        name: "the first task has sent to nobody twice and posted, and is lost",
        text: NOBODY,
        asked: GO,
        first: First::IsLost(&[Made::Posted, Made::Posted, Made::Posted]),
    },
];

// Whether an object starts its next request, whose task makes no move.
fn starts(board: &mut Board<PlainMail>, o: ObjId) -> bool
    requires { o < length board.old.domain.objects }
    ensures { board.new.domain ≡ board.old.domain }
{
    match start(board, o) {
        Ok(Started::Run(task)) => {
            drop(task);
            true
        }
        _ => false,
    }
}

// Whether the first task of a request that an object is to start does so.
fn goes_first(board: &mut Board<PlainMail>, o: ObjId, first: First) -> bool
    requires { o < length board.old.domain.objects }
    ensures { board.new.domain ≡ board.old.domain }
{
    match first {
        First::IsGone(moves) => acts(board, o, moves),
        First::IsLost(moves) => acts_and_stays(board, o, moves),
        First::IsOver(moves) => acts(board, o, moves) && starts(board, o),
    }
}

// Whether a second task of a request that an object is to start is refused behind the first.
fn is_refused_behind(board: &mut Board<PlainMail>, o: ObjId, second: Task, first: First) -> bool
    requires object { o < length board.old.domain.objects }
    requires domain { second.domain ≡ board.old.domain }
    requires within { second.turn.object < length board.old.domain.objects }
    requires waits { IsSome second.pending }
{
    if !goes_first(board, o, first) {
        return false;
    }
    is_refused(board, second, ContactError::Stranger)
}

// The same, of a second task that is made by hand.
fn second_is_refused(
    alloc: Global,
    domain: &Arc<Domain>,
    board: &mut Board<PlainMail>,
    o: ObjId,
    row: SecondTask,
) -> bool
    requires within { o < length board.old.domain.objects }
    requires domain { board.old.domain ≡ arc_value domain.now }
{
    match asking_by_hand(alloc, domain, board, o, row.asked) {
        Some(second) => is_refused_behind(board, o, second, row.first),
        None => false,
    }
}

// Whether a task is refused once its object is killed.
fn is_refused_dead(board: &mut Board<PlainMail>, o: ObjId, session: SessionId, task: Task) -> bool
    requires object { o < length board.old.domain.objects }
    requires domain { task.domain ≡ board.old.domain }
    requires within { task.turn.object < length board.old.domain.objects }
{
    let mut task = task;
    match sets_next(&mut task) {
        Some(false) => {
            let killed = board.kill(o, session).is_ok();
            is_refused(board, task, ContactError::Dead) && killed
        }
        _ => {
            drop(task);
            false
        }
    }
}

// Whether the task that an object starts is refused once the object is killed.
fn killed_is_refused(board: &mut Board<PlainMail>, o: ObjId, session: SessionId) -> bool
    requires { o < length board.old.domain.objects }
{
    match start(board, o) {
        Ok(Started::Run(task)) => is_refused_dead(board, o, session, task),
        _ => false,
    }
}

// A board of a domain, on which nothing was done.
fn fresh_of(alloc: Global, domain: &Arc<Domain>) -> Option<Board<PlainMail>>
    ensures { IfSome result (λ b. b.domain ≡ arc_value domain.now) }
{
    board_of(alloc, domain, 4, 100)
}

// Whether on a board a second task is refused, of the first of two equal requests.
fn refuses_second(
    alloc: Global,
    domain: &Arc<Domain>,
    board: &mut Board<PlainMail>,
    row: SecondTask,
) -> bool
    requires { board.old.domain ≡ arc_value domain.now }
{
    let o = ObjId::new(1);
    domain.has(o)
        && asks(alloc, domain, board, o, row.asked)
        && asks(alloc, domain, board, o, row.asked)
        && second_is_refused(alloc, domain, board, o, row)
}

/// Whether a second task of the first of two equal requests is refused, once the first one did its moves.
pub fn refuses_second_task(alloc: Global, row: SecondTask) -> bool {
    let Ok(domain) = domain_of(alloc, row.text) else {
        return false;
    };
    let Some(board) = fresh_of(alloc, &domain) else {
        return false;
    };
    let mut board = board;
    let refused = refuses_second(alloc, &domain, &mut board, row);
    drop(board);
    refused
}

// Whether on a board a task is refused whose object was killed while it was out.
fn refuses_dead(alloc: Global, domain: &Domain, board: &mut Board<PlainMail>) -> bool
    requires { board.old.domain ≡ domain.now }
{
    let o = ObjId::new(2);
    match SessionId::new(1) {
        Some(session) => {
            domain.has(o)
                && asks(alloc, domain, board, o, CONFIGURE)
                && killed_is_refused(board, o, session)
        }
        None => false,
    }
}

/// Whether a task is refused whose object was killed while it was out.
pub fn refuses_killed(alloc: Global) -> bool {
    let Ok(domain) = domain_of(alloc, SUPPLIES) else {
        return false;
    };
    let Some(board) = fresh_of(alloc, &domain) else {
        return false;
    };
    let mut board = board;
    let refused = refuses_dead(alloc, &domain, &mut board);
    drop(board);
    refused
}
