//! What a worker has in hand.
ghost use Rattle.std.specs.Prelude.{◌≡◌, true};
ghost use Rattle.smi_run_shared.specs.Jobs.{IsTaskIn};

use smi_board::Started;
use smi_interp::Task;
use std::sync::Wait;

/// What a worker has in hand once it was under the lock.
#[derive(Drop)]
pub enum Job {
    /// A task, whose next moves are made outside the lock, up to one that asks for something.
    Move(Task),
    /// A device is to perform what was started at the object with this number.
    Perform { object: usize, started: Started },
    /// Nothing, and more may be done at once.
    Again,
    /// Nothing, since nothing can be done now.
    Rest,
    /// Nothing, since memory ran out. The task was taken back, or the object woken again.
    Memory,
}

// Makes a move of a task, which stays one of its object. Returns whether there was memory.
#[tactic(auto, using(crate::proofs::Tasks::shown_domain, crate::proofs::Tasks::shown_object))]
fn make_move(task: &mut Task) -> bool
    ensures domain { task.new.domain ≡ task.old.domain }
    ensures object { task.new.turn.object ≡ task.old.turn.object }
{
    match task.advance() {
        Ok(_contact) => true,
        Err(_) => false,
    }
}

/// Makes the moves of a task up to one that asks the board for something. A `set` is made here and the branch of an
/// `if` is picked, and no lock is held. Returns whether there was memory.
pub fn make_moves<R: Wait>(rt: &R, task: &mut Task) -> bool
    ensures domain { task.new.domain ≡ task.old.domain }
    ensures object { task.new.turn.object ≡ task.old.turn.object }
{
    for _ in rt.forever() {
        if !make_move(task) {
            return false;
        }
        if task.pending().is_some() {
            return true;
        }
    }
    unreachable!()
}
