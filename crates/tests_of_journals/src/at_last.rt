//! Boards that are refused memory: each call leaves all as it was, and the same call then returns its answer.
ghost use Rattle.std.specs.Prelude.{◌≡◌, ◌<◌, IfSome, IsSome, None, length};
ghost use Rattle.std.specs.Arc.{arc_value};
ghost use Rattle.smi_board.specs.Contacts.{IsTaskOf, StartsTaskOf};

use crate::acts::{contact, put, sets_next, start};
use crate::boards::{board_of, journal_text};
use crate::memory_of_ledgers::domain_at_last;
use crate::names::object_named;
use crate::requests::Asked;
use crate::rows::{Plain, are_values};
use crate::strangers::asks;
use smi_board::{Board, Started, Work};
use smi_interp::Task;
use smi_journal::{Entry, SessionId};
use smi_mail_plain::PlainMail;
use sml_domain::{Domain, ObjId, StateId};
use std::alloc::Global;
use std::sync::Arc;
use test_domains::COUNTER;

const TEXT: &[u8] = b"class: SINK /associated
  state: READY
    action: TAKE (int V)
class: COUNTER
  parameters: int N = 3
  state: IDLE
    action: PUT (int T)
      set N = T
      do TAKE (V = N) OUT
      if ( OUT in_state READY ) then
        move_to IDLE
      endif
object: OUT is_of_class SINK
object: C is_of_class COUNTER
object: A is_of_class SINK
object: B is_of_class SINK
object: D is_of_class SINK
";

const GIVEN: &[Plain] = &[Plain::Int(5)];

const PUT: Asked = (1, "PUT", GIVEN);

// What is asked of a board.
#[derive(Clone, Copy)]
enum Call {
    /// An object is killed.
    Kill(&'static str),
    /// The counter is sent a request.
    Ask,
    /// An object starts its next request, which its device ends, or whose task continues as far as it can.
    Act(&'static str),
    /// A task that was kept continues as far as it can.
    GoOn,
}

// The journal has room for 4 entries, then for 8. For each call except one there is a number of the first three calls
// such that, without these, the journal grows at that call.
const CALLS: &[Call] = &[
    Call::Kill("A"),
    Call::Kill("B"),
    Call::Kill("D"),
    Call::Ask,
    Call::Act("C"),
    Call::Act("OUT"),
    Call::GoOn,
    Call::Kill("OUT"),
];

const HEADER: &str = "smi-journal 2\n";

// The further lines of the journal, one for each of the first three calls.
const LINES: &str = "kill A @1
kill B @1
kill D @1
start C @1 0 PUT (T = 5)
post C OUT 0 TAKE (V = 5)
wait C
start OUT C 0 TAKE (V = 5)
end OUT READY
seen C OUT=READY
end C IDLE
kill OUT @1
";

// Whether a task whose contact waits is answered. If it continues, it is put in the empty place.
fn contact_at_last(board: &mut Board<PlainMail>, place: &mut Option<Task>, task: Task) -> bool
    requires domain { task.domain ≡ board.old.domain }
    requires within { task.turn.object < length board.old.domain.objects }
    requires waits { IsSome task.pending }
    requires none { place.old ≡ None }
    ensures same { board.new.domain ≡ board.old.domain }
    ensures left { IfSome place.new (IsTaskOf board.old.domain task.turn.object) }
{
    match contact(board, place, task) {
        Ok(_) => true,
        Err((_, task)) => contact(board, place, task).ok().is_some(),
    }
}

// Whether a task makes its next move. If it continues, it is put in the empty place.
fn go_on(board: &mut Board<PlainMail>, place: &mut Option<Task>, task: Task) -> bool
    requires domain { task.domain ≡ board.old.domain }
    requires within { task.turn.object < length board.old.domain.objects }
    requires none { place.old ≡ None }
    ensures same { board.new.domain ≡ board.old.domain }
    ensures left { IfSome place.new (IsTaskOf board.old.domain task.turn.object) }
{
    let mut task = task;
    match sets_next(&mut task) {
        Some(false) => contact_at_last(board, place, task),
        is_set => {
            put(place, task);
            is_set.is_some()
        }
    }
}

// Whether the task in a place makes its next move. If it is gone then, the place is empty.
fn makes(board: &mut Board<PlainMail>, o: ObjId, place: &mut Option<Task>) -> bool
    requires within { o < length board.old.domain.objects }
    requires task { IfSome place.old (IsTaskOf board.old.domain o) }
    ensures same { board.new.domain ≡ board.old.domain }
    ensures left { IfSome place.new (IsTaskOf board.old.domain o) }
{
    match place.take() {
        Some(task) => go_on(board, place, task),
        None => false,
    }
}

// Lets the task in a place continue until it waits or ends, which it does after four moves at most.
fn makes_all(board: &mut Board<PlainMail>, o: ObjId, place: &mut Option<Task>) -> bool
    requires within { o < length board.old.domain.objects }
    requires task { IfSome place.old (IsTaskOf board.old.domain o) }
    ensures { board.new.domain ≡ board.old.domain }
{
    for _ in 0..4u32 {
        if !makes(board, o, place) {
            return false;
        }
        if place.is_none() {
            return true;
        }
    }
    false
}

fn goes_on(board: &mut Board<PlainMail>, task: Task) -> bool
    requires domain { task.domain ≡ board.old.domain }
    requires within { task.turn.object < length board.old.domain.objects }
    ensures { board.new.domain ≡ board.old.domain }
{
    let o = task.turn().object;
    let mut place = Some(task);
    let all = makes_all(board, o, &mut place);
    drop(place);
    all
}

fn start_at_last(board: &mut Board<PlainMail>, o: ObjId) -> Option<Started>
    requires { o < length board.old.domain.objects }
    ensures same { board.new.domain ≡ board.old.domain }
    ensures task { IfSome result (StartsTaskOf board.old.domain o) }
{
    match start(board, o) {
        Ok(started) => Some(started),
        Err(_) => start(board, o).ok(),
    }
}

fn acts(board: &mut Board<PlainMail>, o: ObjId) -> bool
    requires { o < length board.old.domain.objects }
    ensures { board.new.domain ≡ board.old.domain }
{
    match start_at_last(board, o) {
        Some(Started::Run(task)) => goes_on(board, task),
        Some(Started::Perform { .. }) => board.answered(o, StateId::new(0)).is_ok(),
        _ => false,
    }
}

fn resumes(board: &mut Board<PlainMail>) -> bool
    ensures { board.new.domain ≡ board.old.domain }
{
    match board.next() {
        Some(Work::Resume(task)) => goes_on(board, task),
        Some(Work::Start(_)) => false,
        None => false,
    }
}

fn kills(board: &mut Board<PlainMail>, o: ObjId) -> bool
    requires { o < length board.old.domain.objects }
    ensures { board.new.domain ≡ board.old.domain }
{
    match SessionId::new(1) {
        Some(session) => board.kill(o, session).is_ok() || board.kill(o, session).is_ok(),
        None => false,
    }
}

// The object that a call is about.
fn object_of(domain: &Domain, call: Call) -> Option<ObjId>
    ensures { IfSome result (λ o. o < length domain.now.objects) }
{
    let name = match call {
        Call::Kill(name) | Call::Act(name) => name,
        Call::Ask | Call::GoOn => "C",
    };
    let o = object_named(domain, name)?;
    if domain.has(o) { Some(o) } else { None }
}

// Whether a board returns the right answer to a call, at the second time at the latest.
fn answers(alloc: Global, domain: &Domain, board: &mut Board<PlainMail>, call: Call) -> bool
    requires { board.old.domain ≡ domain.now }
    ensures { board.new.domain ≡ domain.now }
{
    let Some(o) = object_of(domain, call) else {
        return false;
    };
    match call {
        Call::Kill(_) => kills(board, o),
        Call::Ask => asks(alloc, domain, board, o, PUT) || asks(alloc, domain, board, o, PUT),
        Call::Act(_) => acts(board, o),
        Call::GoOn => resumes(board),
    }
}

// Whether a board returns the right answer to each call.
fn answers_all(alloc: Global, domain: &Domain, board: &mut Board<PlainMail>, calls: &[Call]) -> bool
    requires { board.old.domain ≡ domain.now }
    ensures { board.new.domain ≡ domain.now }
{
    for call in calls {
        if !answers(alloc, domain, board, *call) {
            return false;
        }
    }
    true
}

// A new board, asked for a second time if it was refused.
fn board_at_last(alloc: Global, domain: &Arc<Domain>) -> Option<Board<PlainMail>>
    ensures { IfSome result (λ b. b.domain ≡ arc_value domain.now) }
{
    match board_of(alloc, domain, 1, 100) {
        Some(board) => Some(board),
        None => board_of(alloc, domain, 1, 100),
    }
}

// Whether the counter of a board has the parameter that it was given.
fn is_put(domain: &Domain, board: &Board<PlainMail>) -> bool
    requires { board.now.domain ≡ domain.now }
{
    match object_of(domain, Call::Ask) {
        Some(o) => are_values(board.params(o), GIVEN),
        None => false,
    }
}

// A text without its first lines.
fn behind(text: &str, lines: usize) -> &str {
    let mut rest = text;
    for _ in 0..lines {
        rest = match rest.split_once('\n') {
            Some((_, rest)) => rest,
            None => "",
        };
    }
    rest
}

// The text of a journal, asked for a second time if it was refused.
fn text_at_last(alloc: Global, domain: &Domain, journal: &[Entry]) -> Option<String> {
    match journal_text(alloc, domain, journal) {
        Some(text) => Some(text),
        None => journal_text(alloc, domain, journal),
    }
}

// Whether a journal is of the lines behind the first `skipped`.
fn has_lines(alloc: Global, domain: &Domain, journal: &[Entry], skipped: usize) -> bool {
    match text_at_last(alloc, domain, journal) {
        Some(text) => text.strip_prefix(HEADER) == Some(behind(LINES, skipped)),
        None => false,
    }
}

// Whether a board answers all calls except the first `skipped`, and its journal is theirs.
fn is_kept(alloc: Global, domain: &Arc<Domain>, skipped: usize) -> bool {
    let Some(calls) = CALLS.get(skipped..) else {
        return false;
    };
    let Some(board) = board_at_last(alloc, domain) else {
        return false;
    };
    let mut board = board;
    let kept = answers_all(alloc, domain, &mut board, calls)
        && is_put(domain, &board)
        && has_lines(alloc, domain, board.journal(), skipped);
    // By a call, which is less to prove than on the spot.
    drop(board);
    kept
}

/// Whether boards continue, though memory is refused once.
pub fn are_kept(alloc: Global) -> bool {
    let Some(domain) = domain_at_last(alloc, TEXT) else {
        return false;
    };
    for skipped in 0..4usize {
        if !is_kept(alloc, &domain, skipped) {
            return false;
        }
    }
    true
}
