//! What is asked of a board, call by call, and what it must answer.
ghost use Rattle.std.specs.Prelude.{◌≡◌, ◌<◌, ℕ, [], IfSome, length, true};
ghost use Rattle.std.specs.Arc.{arc_value};
ghost use Rattle.smi_journal_entries.specs.declared.entry.Sender.{Sender};
ghost use Rattle.smi_journal_entries.specs.Fits.{letter_fits};
ghost use Rattle.smi_mail_plain.specs.Boxes.{sent_at, taken_at};
ghost use Rattle.smi_board.specs.Refusals.{is_operator};

use crate::acts::{Made, acts, offers, rests, resumes, start};
use crate::journal_texts::text_of;
use crate::names::{action_named, is_action, is_state, object_named, state_named};
use crate::requests::{Asked, is_letter};
use crate::rows::{Plain, are_objects, are_values, args_of};
use smi_board::{AnswerError, Board, KillError, RequestRefusal, StartError, Started};
use smi_interp::Task;
use smi_journal::{Entry, Envelope, Sender, SessionId};
use smi_mail_plain::{MAX_CAPACITY, PlainMail};
use sml_domain::{ActionId, Domain, ObjId, SetId};
use sml_load::domain_of;
use std::alloc::Global;
use std::sync::Arc;

/// What a start must return.
#[derive(Clone, Copy)]
pub enum Opened {
    /// A task that made no move: of a state and parameters, for a request under its number.
    Run(&'static str, &'static [Plain], Asked, u64),
    /// A device is to perform an action with arguments.
    Perform(&'static str, &'static [Plain]),
    /// Nothing.
    Skipped,
}

/// What is asked of a board about an object, and what it must answer.
#[derive(Clone, Copy)]
pub enum Call {
    /// A request, which comes back as it was if it is refused.
    Request(Asked, Result<u64, RequestRefusal>),
    /// The start of the next request.
    Start(Result<Opened, StartError>),
    /// A device's answer, which names a state.
    Answer(&'static str, Result<(), AnswerError>),
    /// A device's fault.
    Fault(Result<u64, AnswerError>),
    /// A kill by a session.
    Kill(u8, Result<u64, KillError>),
    /// The start of the next request, whose task makes these moves.
    Act(&'static [Made]),
    /// A task of the object that was kept continues, and makes these moves.
    Resume(&'static [Made]),
    /// No task continues.
    Rest,
    /// The object is woken.
    Wake,
    /// The object is offered next, to start a request.
    Offered,
    /// Whether something comes next.
    Comes(bool),
    /// Whether the board is quiet.
    Quiet(bool),
    /// The object's state, its parameters, and the place of its kill.
    Look(&'static str, &'static [Plain], Option<u64>),
    /// A set has these members, in this order. They go by number.
    Has(usize, &'static [usize]),
    /// As many requests wait at the object.
    Waits(usize),
    /// Why the object's start would be refused, if it would be.
    Refused(Option<StartError>),
    /// Whether the object's kept task may be able to continue.
    MayGo(bool),
}

/// A board of a domain, with the capacity of its mail and how many starts it makes at most: what is
/// asked of it, each of an object, and the text of its journal in the end.
#[derive(Clone, Copy)]
pub struct Run {
    /// What happens.
    pub name: &'static str,
    pub text: &'static [u8],
    pub capacity: usize,
    pub most: usize,
    pub calls: &'static [(&'static str, Call)],
    pub journal: &'static str,
}

/// The envelope of a request by a session.
pub fn envelope_by(
    alloc: Global,
    session: u8,
    action: ActionId,
    given: &[Plain],
) -> Option<Envelope>
    ensures operator { IfSome result (λ e. is_operator e.sender ≡ true) }
    ensures action { IfSome result (λ e. e.action ≡ action) }
{
    let sender = Sender::Operator(SessionId::new(session)?);
    let args = args_of(alloc, given)?;
    Envelope::new(sender, action, args).ok()
}

/// The envelope of a request, whose sender is an operator.
pub fn envelope_of(alloc: Global, domain: &Domain, asked: Asked) -> Option<Envelope>
    ensures { IfSome result (λ e. is_operator e.sender ≡ true) }
{
    let (session, action, given) = asked;
    let action = action_named(domain, action)?;
    envelope_by(alloc, session, action, given)
}

/// The envelope of a request that fits an object, whose sender is an operator.
pub fn fitting(alloc: Global, domain: &Domain, o: ObjId, asked: Asked) -> Option<Envelope>
    ensures operator { IfSome result (λ e. is_operator e.sender ≡ true) }
    ensures fits { IfSome result (λ e. letter_fits domain.now o e ≡ true) }
{
    let envelope = envelope_of(alloc, domain, asked)?;
    if !envelope.fits(domain, o) {
        return None;
    }
    Some(envelope)
}

// Whether the answer to a request is this. A refused one comes back as it was.
fn is_answer(
    domain: &Domain,
    answer: &Result<u64, (RequestRefusal, Envelope)>,
    row: (Asked, Result<u64, RequestRefusal>),
) -> bool {
    let (asked, told) = row;
    match (answer, told) {
        (Ok(number), Ok(wanted)) => *number == wanted,
        (Err((refusal, back)), Err(wanted)) => {
            *refusal == wanted && is_letter(domain, back.letter(), asked, 0)
        }
        _ => false,
    }
}

// Whether a request that fits is answered so.
fn requests(
    alloc: Global,
    domain: &Domain,
    board: &mut Board<PlainMail>,
    o: ObjId,
    row: (Asked, Result<u64, RequestRefusal>),
) -> bool
    requires within { o < length board.old.domain.objects }
    requires domain { board.old.domain ≡ domain.now }
    ensures { board.new.domain ≡ domain.now }
{
    match fitting(alloc, domain, o, row.0) {
        Some(envelope) => is_answer(domain, &board.request(o, envelope), row),
        None => false,
    }
}

// Whether a task is of an object, a state and parameters, made no move, and runs a request.
fn is_begun(task: &Task, o: ObjId, state: &str, params: &[Plain], request: (Asked, u64)) -> bool {
    let domain = task.domain();
    let turn = task.turn();
    let (asked, number) = request;
    turn.object.get() == o.get()
        && is_state(domain, turn.state, state)
        && are_values(&turn.params, params)
        && is_letter(domain, &turn.letter, asked, number)
        && turn.moves.is_empty()
        && task.pending().is_none()
}

fn is_opened(domain: &Domain, started: &Started, o: ObjId, opened: Opened) -> bool {
    match (started, opened) {
        (Started::Run(task), Opened::Run(state, params, asked, number)) => {
            is_begun(task, o, state, params, (asked, number))
        }
        (Started::Perform { action, args }, Opened::Perform(wanted, given)) => {
            is_action(domain, *action, wanted) && are_values(args.values(), given)
        }
        (Started::Skipped, Opened::Skipped) => true,
        _ => false,
    }
}

fn is_start(
    domain: &Domain,
    given: &Result<Started, StartError>,
    o: ObjId,
    told: Result<Opened, StartError>,
) -> bool {
    match (given, told) {
        (Ok(started), Ok(opened)) => is_opened(domain, started, o, opened),
        (Err(error), Err(wanted)) => *error == wanted,
        _ => false,
    }
}

// Whether the next start returns this.
fn starts(
    domain: &Domain,
    board: &mut Board<PlainMail>,
    o: ObjId,
    told: Result<Opened, StartError>,
) -> bool
    requires { o < length board.old.domain.objects }
    ensures { board.new.domain ≡ board.old.domain }
{
    let given = start(board, o);
    let is_told = is_start(domain, &given, o, told);
    drop(given);
    is_told
}

// Whether a kill by a session is answered so.
fn kills(board: &mut Board<PlainMail>, o: ObjId, session: u8, told: Result<u64, KillError>) -> bool
    requires { o < length board.old.domain.objects }
    ensures { board.new.domain ≡ board.old.domain }
{
    match SessionId::new(session) {
        Some(session) => board.kill(o, session) == told,
        None => false,
    }
}

// Whether an object is in the state, with the parameters, and is killed there.
fn is_like(
    domain: &Domain,
    board: &Board<PlainMail>,
    o: ObjId,
    state: &str,
    params: &[Plain],
    dead_at: Option<u64>,
) -> bool
    requires { o < length board.now.domain.objects }
{
    is_state(domain, board.state(o), state)
        && board.dead_at(o) == dead_at
        && are_values(board.params(o), params)
}

// Wakes an object, which nothing refuses.
fn wakes(board: &mut Board<PlainMail>, o: ObjId) -> bool
    requires { o < length board.old.domain.objects }
    ensures { board.new.domain ≡ board.old.domain }
{
    board.wake(o);
    true
}

// Whether a board answers a call about an object of its domain as it must.
fn answers(
    alloc: Global,
    domain: &Domain,
    board: &mut Board<PlainMail>,
    o: ObjId,
    call: Call,
) -> bool
    requires within { o < length board.old.domain.objects }
    requires domain { board.old.domain ≡ domain.now }
    ensures { board.new.domain ≡ domain.now }
{
    match call {
        Call::Request(asked, told) => requests(alloc, domain, board, o, (asked, told)),
        Call::Start(told) => starts(domain, board, o, told),
        Call::Answer(state, told) => board.answered(o, state_named(domain, state)) == told,
        Call::Fault(told) => board.fault(o) == told,
        Call::Kill(session, told) => kills(board, o, session, told),
        Call::Act(moves) => acts(board, o, moves),
        Call::Resume(moves) => resumes(board, o, moves),
        Call::Rest => rests(board),
        Call::Wake => wakes(board, o),
        Call::Offered => offers(board, o),
        Call::Comes(told) => board.has_next() == told,
        Call::Quiet(told) => board.quiet() == told,
        Call::Look(state, params, dead_at) => is_like(domain, board, o, state, params, dead_at),
        Call::Has(set, members) => are_objects(board.members(SetId::new(set)), members),
        Call::Waits(told) => board.waits(o) == told,
        Call::Refused(told) => board.start_refused(o) == told,
        Call::MayGo(told) => board.may_go_on(o) == told,
    }
}

// The same about an object with a name.
fn answers_at(
    alloc: Global,
    domain: &Domain,
    board: &mut Board<PlainMail>,
    name: &str,
    call: Call,
) -> bool
    requires { board.old.domain ≡ domain.now }
    ensures { board.new.domain ≡ domain.now }
{
    match object_named(domain, name) {
        Some(o) => domain.has(o) && answers(alloc, domain, board, o, call),
        None => false,
    }
}

// The place of the first call that a board of the domain does not answer as it must.
fn wrong_call(
    alloc: Global,
    domain: &Domain,
    board: &mut Board<PlainMail>,
    calls: &[(&'static str, Call)],
) -> Option<usize>
    requires { board.old.domain ≡ domain.now }
{
    for (place, row) in calls.iter().enumerate() {
        let (name, call) = *row;
        if !answers_at(alloc, domain, board, name, call) {
            return Some(place);
        }
    }
    None
}

// The mail of a domain, to which nothing was sent.
fn mail_of(alloc: Global, domain: &Arc<Domain>, capacity: usize) -> Option<PlainMail>
    ensures domain { IfSome result (λ m. m.domain ≡ arc_value domain.now) }
    ensures taken { IfSome result (λ m. (o : ℕ) → taken_at m o ≡ []) }
    ensures sent { IfSome result (λ m. (s : Sender) (o : ℕ) → sent_at m s o ≡ []) }
{
    if capacity < 1 || capacity > MAX_CAPACITY {
        return None;
    }
    let shared = Arc::try_clone(domain).ok()?;
    PlainMail::new(alloc, shared, capacity).ok()
}

/// A board with a capacity and a limit of starts, on which nothing was done.
pub fn board_of(
    alloc: Global,
    domain: &Arc<Domain>,
    capacity: usize,
    most: usize,
) -> Option<Board<PlainMail>>
    ensures { IfSome result (λ b. b.domain ≡ arc_value domain.now) }
{
    let shared = Arc::try_clone(domain).ok()?;
    let mail = mail_of(alloc, domain, capacity)?;
    Board::new(alloc, shared, mail, most).ok()
}

/// The text of a journal. None if memory is refused.
pub fn journal_text(alloc: Global, domain: &Domain, entries: &[Entry]) -> Option<String> {
    String::from_utf8(text_of(alloc, domain, entries)?).ok()
}

// The text of the journal of a board in the end, or which call it does not answer as it must.
fn told_by(
    alloc: Global,
    domain: &Domain,
    board: &mut Board<PlainMail>,
    calls: &[(&'static str, Call)],
) -> Option<String>
    requires { board.old.domain ≡ domain.now }
{
    match wrong_call(alloc, domain, board, calls) {
        Some(place) => format!(in alloc; "another answer to the call at {place}\n").ok(),
        None => journal_text(alloc, domain, board.journal()),
    }
}

// The same for the board of a run. None if memory is refused.
fn told_in(alloc: Global, run: Run) -> Option<String> {
    let domain = domain_of(alloc, run.text).ok()?;
    let mut board = board_of(alloc, &domain, run.capacity, run.most)?;
    let told = told_by(alloc, &domain, &mut board, run.calls);
    // By a call, which is less to prove than on the spot.
    drop(board);
    told
}

/// The text of the journal of a run's board in the end, or which call it does not answer as it must. Nothing if memory
/// is refused.
pub fn journal_of(alloc: Global, run: Run) -> String {
    match told_in(alloc, run) {
        Some(told) => told,
        None => String::new(alloc),
    }
}
