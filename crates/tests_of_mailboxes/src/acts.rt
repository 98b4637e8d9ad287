//! Tasks of a board over any mail, followed from contact to contact.
ghost use Rattle.std.specs.Prelude.{◌≡◌, ◌<◌, ℕ, IfSome, IsSome, None, Some, length};
ghost use Rattle.sml_domain.specs.Domain.{Domain};
ghost use Rattle.smi_board.specs.Contacts.{IsTaskOf, RepliesTaskOf};

use smi_board::{Board, Reply, Started, Work};
use smi_interp::Task;
use smi_mail::Mail;
use sml_domain::{ObjId, StateId};

/// What becomes of a task next.
#[derive(Clone, Copy, PartialEq)]
pub enum Made {
    /// Its posts are judged.
    Posted,
    /// Its objects are read.
    Seen,
    /// Its set is changed.
    Changed,
    /// It waits, and the board keeps it.
    Waiting,
    /// It ends.
    Ended,
}

// What a reply tells. If the task continues, it is put in the empty place.
fn leave(place: &mut Option<Task>, reply: Reply) -> Made
    requires { place.old ≡ None }
    ensures { (d : Domain) (o : ℕ) → RepliesTaskOf d o reply → IfSome place.new (IsTaskOf d o) }
{
    match reply {
        Reply::Posted(task) => {
            drop(place.replace(task));
            Made::Posted
        }
        Reply::Seen(task) => {
            drop(place.replace(task));
            Made::Seen
        }
        Reply::Changed(task) => {
            drop(place.replace(task));
            Made::Changed
        }
        Reply::Waiting => Made::Waiting,
        Reply::Ended => Made::Ended,
    }
}

// Submits a task whose contact waits: whether this becomes of it. If it continues, it is put in the empty place.
fn hand_in<M: Mail>(board: &mut Board<M>, place: &mut Option<Task>, task: Task, made: Made) -> bool
    requires domain { task.domain ≡ board.old.domain }
    requires within { task.turn.object < length board.old.domain.objects }
    requires waits { IsSome task.pending }
    requires none { place.old ≡ None }
    ensures same { board.new.domain ≡ board.old.domain }
    ensures left { IfSome place.new (IsTaskOf board.old.domain task.turn.object) }
{
    match board.contact(task).ok() {
        Some(reply) => leave(place, reply) == made,
        None => false,
    }
}

// Whether the task in a place makes this move. If it is gone then, the place is empty.
fn makes<M: Mail>(board: &mut Board<M>, o: ObjId, place: &mut Option<Task>, made: Made) -> bool
    requires within { o < length board.old.domain.objects }
    requires task { IfSome place.old (IsTaskOf board.old.domain o) }
    ensures same { board.new.domain ≡ board.old.domain }
    ensures left { IfSome place.new (IsTaskOf board.old.domain o) }
{
    let Some(mut task) = place.take() else {
        return false;
    };
    if task.advance().is_err() || task.pending().is_none() {
        drop(task);
        return false;
    }
    hand_in(board, place, task, made)
}

// Whether the task in a place makes these moves and no others before it is gone.
fn makes_all<M: Mail>(
    board: &mut Board<M>,
    o: ObjId,
    place: &mut Option<Task>,
    moves: &[Made],
) -> bool
    requires within { o < length board.old.domain.objects }
    requires task { IfSome place.old (IsTaskOf board.old.domain o) }
    ensures { board.new.domain ≡ board.old.domain }
{
    for made in moves {
        if !makes(board, o, place, *made) {
            return false;
        }
    }
    place.is_none()
}

// Whether a task makes these moves and no others before it is gone.
fn follows<M: Mail>(board: &mut Board<M>, task: Task, moves: &[Made]) -> bool
    requires domain { task.domain ≡ board.old.domain }
    requires within { task.turn.object < length board.old.domain.objects }
    ensures { board.new.domain ≡ board.old.domain }
{
    let o = task.turn().object;
    let mut place = Some(task);
    let all = makes_all(board, o, &mut place, moves);
    drop(place);
    all
}

/// Whether an object starts its next request, and its task makes these moves.
pub fn acts<M: Mail>(board: &mut Board<M>, o: ObjId, moves: &[Made]) -> bool
    requires { o < length board.old.domain.objects }
    ensures { board.new.domain ≡ board.old.domain }
{
    match board.start(o) {
        Ok(Started::Run(task)) => follows(board, task, moves),
        _ => false,
    }
}

/// Whether the task that continues makes these moves.
pub fn resumes<M: Mail>(board: &mut Board<M>, moves: &[Made]) -> bool
    ensures { board.new.domain ≡ board.old.domain }
{
    match board.next() {
        Some(Work::Resume(task)) => follows(board, task, moves),
        Some(Work::Start(_)) => false,
        None => false,
    }
}

/// Whether an object starts its next request, and its device answers with a state.
pub fn performs<M: Mail>(board: &mut Board<M>, o: ObjId, state: StateId) -> bool
    requires { o < length board.old.domain.objects }
    ensures { board.new.domain ≡ board.old.domain }
{
    let performs = matches!(board.start(o), Ok(Started::Perform { .. }));
    performs && board.answered(o, state).is_ok()
}
