//! A board, and the tasks that are under way beside it.
ghost use Rattle.std.specs.Prelude.{◌≡◌, ◌≤◌, ◌-◌, length};
ghost use Rattle.smi_world.specs.declared.step.Answer.TheVariants.{Entries};
ghost use Rattle.smi_core.specs.Told.{BoardIsTold};

use smi_board::Board;
use smi_interp::Task;
use smi_mail_plain::PlainMail;
use smi_world::Answer;
use std::alloc::Global;

/// A board, and beside it the task of each object that is under way and that the board does not keep.
#[derive(Drop)]
pub(crate) struct Machine {
    pub(crate) board: Board<PlainMail>,
    pub(crate) tasks: Vec<Option<Task>>,
    pub(crate) alloc: Global,
}

impl Machine {
    // A law, whose function does nothing: what holds of every board.
    pub(crate) fn told(&self)
        ensures { BoardIsTold self.now.board }
    {
        self.board.tells();
        self.board.limits();
        let _sound = self.board.domain().objects();
    }

    // The answer that tells the entries since a place of the journal.
    pub(crate) fn entries_since(&self, first: usize) -> Answer
        requires { first ≤ length self.now.board.journal }
        ensures { result ≡ Entries first (length self.now.board.journal - first) }
    {
        let count = self.board.journal().len() - first;
        Answer::Entries {
            first: first as u64,
            count: count as u64,
        }
    }
}
