//! Tasks of a board, followed from contact to contact.
ghost use Rattle.std.specs.Prelude.{◌≡◌, ◌<◌, ℕ, IfErr, IfOk, IfSome, IsSome, None, OnErr, Some, false, length};
ghost use Rattle.sml_domain.specs.Domain.{Domain};
ghost use Rattle.smi_board.specs.Contacts.{IsTaskOf, RepliesTaskOf, StartsTaskOf};

use smi_board::{Board, ContactError, Reply, StartError, Started, Work};
use smi_interp::Task;
use smi_mail_plain::PlainMail;
use sml_domain::ObjId;

/// What becomes of a task next.
#[derive(Clone, Copy, PartialEq)]
pub enum Made {
    /// It makes a `set`.
    Set,
    /// Its posts are judged.
    Posted,
    /// Its objects are read.
    Seen,
    /// Its set is changed.
    Changed,
    /// It waits, and the board keeps it.
    Waiting,
    /// It ends.
    Ended,
    /// It is put back, and the board keeps it.
    Shelved,
}

/// Puts a task into a place. What was there is dropped by a call, which is less to prove than on the spot.
pub fn put(place: &mut Option<Task>, task: Task)
    ensures { place.new ≡ Some task }
{
    drop(place.replace(task));
}

// What a reply tells. If the task continues, it is put in the empty place.
fn leave(place: &mut Option<Task>, reply: Reply) -> Made
    requires { place.old ≡ None }
    ensures { (d : Domain) (o : ℕ) → RepliesTaskOf d o reply → IfSome place.new (IsTaskOf d o) }
{
    match reply {
        Reply::Posted(task) => {
            put(place, task);
            Made::Posted
        }
        Reply::Seen(task) => {
            put(place, task);
            Made::Seen
        }
        Reply::Changed(task) => {
            put(place, task);
            Made::Changed
        }
        Reply::Waiting => Made::Waiting,
        Reply::Ended => Made::Ended,
    }
}

/// Submits a task whose contact waits: what becomes of it. If it continues, it is put in the empty place.
pub fn contact(
    board: &mut Board<PlainMail>,
    place: &mut Option<Task>,
    task: Task,
) -> Result<Made, (ContactError, Task)>
    requires domain { task.domain ≡ board.old.domain }
    requires within { task.turn.object < length board.old.domain.objects }
    requires waits { IsSome task.pending }
    requires none { place.old ≡ None }
    ensures same { board.new.domain ≡ board.old.domain }
    ensures left { IfSome place.new (IsTaskOf board.old.domain task.turn.object) }
    ensures back { IfErr result (λ e. e.1 ≡ task) }
    ensures none { OnErr result (place.new ≡ None) }
{
    match board.contact(task) {
        Ok(reply) => Ok(leave(place, reply)),
        Err(refused) => Err(refused),
    }
}

/// Puts a task back: how it is refused, if it is.
pub fn hand_back(board: &mut Board<PlainMail>, task: Task) -> Option<ContactError>
    requires domain { task.domain ≡ board.old.domain }
    requires within { task.turn.object < length board.old.domain.objects }
    ensures same { board.new.domain ≡ board.old.domain }
{
    match board.shelve(task) {
        Ok(()) => None,
        Err((error, task)) => {
            drop(task);
            Some(error)
        }
    }
}

// Submits a task whose contact waits: whether this becomes of it.
fn hand_in(board: &mut Board<PlainMail>, place: &mut Option<Task>, task: Task, made: Made) -> bool
    requires domain { task.domain ≡ board.old.domain }
    requires within { task.turn.object < length board.old.domain.objects }
    requires waits { IsSome task.pending }
    requires none { place.old ≡ None }
    ensures same { board.new.domain ≡ board.old.domain }
    ensures left { IfSome place.new (IsTaskOf board.old.domain task.turn.object) }
{
    match contact(board, place, task).ok() {
        Some(told) => told == made,
        None => false,
    }
}

// Whether a task makes a move.
fn moves(task: &mut Task) -> bool
    ensures domain { task.new.domain ≡ task.old.domain }
    ensures object { task.new.turn.object ≡ task.old.turn.object }
{
    task.advance().is_ok()
}

/// Whether the next contact of a task is a set. None if memory is refused at the second try too.
pub fn sets_next(task: &mut Task) -> Option<bool>
    ensures domain { task.new.domain ≡ task.old.domain }
    ensures object { task.new.turn.object ≡ task.old.turn.object }
    ensures waits { IfSome result (λ r. r ≡ false → IsSome task.new.pending) }
{
    if moves(task) || moves(task) {
        Some(task.pending().is_none())
    } else {
        None
    }
}

// Lets a task make its next move: whether this becomes of it. If it continues, it is put in the empty place.
fn go_on(board: &mut Board<PlainMail>, place: &mut Option<Task>, task: Task, made: Made) -> bool
    requires domain { task.domain ≡ board.old.domain }
    requires within { task.turn.object < length board.old.domain.objects }
    requires none { place.old ≡ None }
    ensures same { board.new.domain ≡ board.old.domain }
    ensures left { IfSome place.new (IsTaskOf board.old.domain task.turn.object) }
{
    let mut task = task;
    match sets_next(&mut task) {
        Some(false) => hand_in(board, place, task, made),
        is_set => {
            put(place, task);
            is_set.is_some() && made == Made::Set
        }
    }
}

// Whether the task in a place makes this move. If it is gone then, the place is empty.
fn makes(board: &mut Board<PlainMail>, o: ObjId, place: &mut Option<Task>, made: Made) -> bool
    requires within { o < length board.old.domain.objects }
    requires task { IfSome place.old (IsTaskOf board.old.domain o) }
    ensures same { board.new.domain ≡ board.old.domain }
    ensures left { IfSome place.new (IsTaskOf board.old.domain o) }
{
    match place.take() {
        Some(task) if made == Made::Shelved => hand_back(board, task).is_none(),
        Some(task) => go_on(board, place, task, made),
        None => false,
    }
}

// Whether the task in a place makes these moves, and stays there then or is gone.
fn makes_all(
    board: &mut Board<PlainMail>,
    o: ObjId,
    place: &mut Option<Task>,
    moves: &[Made],
    stays: bool,
) -> bool
    requires within { o < length board.old.domain.objects }
    requires task { IfSome place.old (IsTaskOf board.old.domain o) }
    ensures { board.new.domain ≡ board.old.domain }
{
    for made in moves {
        if !makes(board, o, place, *made) {
            return false;
        }
    }
    place.is_some() == stays
}

// Whether a task makes these moves, and then continues or is gone.
fn follows(board: &mut Board<PlainMail>, task: Task, moves: &[Made], stays: bool) -> bool
    requires domain { task.domain ≡ board.old.domain }
    requires within { task.turn.object < length board.old.domain.objects }
    ensures { board.new.domain ≡ board.old.domain }
{
    let o = task.turn().object;
    let mut place = Some(task);
    let all = makes_all(board, o, &mut place, moves, stays);
    drop(place);
    all
}

/// Starts an object's next request.
pub fn start(board: &mut Board<PlainMail>, o: ObjId) -> Result<Started, StartError>
    requires { o < length board.old.domain.objects }
    ensures same { board.new.domain ≡ board.old.domain }
    ensures task { IfOk result (StartsTaskOf board.old.domain o) }
{
    board.start(o)
}

// Whether an object starts its next request, and its task makes these moves, and then continues or is gone.
fn starts_to_act(board: &mut Board<PlainMail>, o: ObjId, moves: &[Made], stays: bool) -> bool
    requires { o < length board.old.domain.objects }
    ensures { board.new.domain ≡ board.old.domain }
{
    match start(board, o) {
        Ok(Started::Run(task)) => follows(board, task, moves, stays),
        _ => false,
    }
}

/// Whether an object starts its next request, and its task makes these moves and no others before it is gone.
pub fn acts(board: &mut Board<PlainMail>, o: ObjId, moves: &[Made]) -> bool
    requires { o < length board.old.domain.objects }
    ensures { board.new.domain ≡ board.old.domain }
{
    starts_to_act(board, o, moves, false)
}

/// Whether an object starts its next request, and its task makes these moves. The task is dropped then.
pub fn acts_and_stays(board: &mut Board<PlainMail>, o: ObjId, moves: &[Made]) -> bool
    requires { o < length board.old.domain.objects }
    ensures { board.new.domain ≡ board.old.domain }
{
    starts_to_act(board, o, moves, true)
}

/// Whether the task of an object continues, and makes these moves.
pub fn resumes(board: &mut Board<PlainMail>, o: ObjId, moves: &[Made]) -> bool
    ensures { board.new.domain ≡ board.old.domain }
{
    match board.next() {
        Some(Work::Resume(task)) => {
            task.turn().object.get() == o.get() && follows(board, task, moves, false)
        }
        Some(Work::Start(_)) => false,
        None => false,
    }
}

/// Whether an object is offered next, to start a request.
pub fn offers(board: &mut Board<PlainMail>, o: ObjId) -> bool
    ensures { board.new.domain ≡ board.old.domain }
{
    let work = board.next();
    let is_offered = match &work {
        Some(Work::Start(next)) => next.get() == o.get(),
        _ => false,
    };
    drop(work);
    is_offered
}

/// Whether no task continues. An object that is offered instead starts nothing.
pub fn rests(board: &mut Board<PlainMail>) -> bool
    ensures { board.new.domain ≡ board.old.domain }
{
    let work = board.next();
    let goes_on = matches!(&work, Some(Work::Resume(_)));
    drop(work);
    !goes_on
}
