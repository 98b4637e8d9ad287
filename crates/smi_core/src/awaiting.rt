//! For whom the open action of an object waits.
ghost use Rattle.std.specs.Prelude.{◌≡◌, ◌<◌, IfOk, length, option_map};
ghost use Rattle.smi_board.specs.Boards.{kept_at};
ghost use Rattle.smi_core.specs.Awaiting.{WaitsForAt};
ghost use Rattle.smi_core.specs.Machines.{either_task, setup_of, world_of};
ghost use Rattle.smi_core.specs.Told.{HaveTheirs};

use crate::machine::Machine;
use smi_interp::Task;
use sml_domain::ObjId;
use std::alloc::AllocError;

impl Machine {
    // The task of an object that is under way: the one beside the board, or else the one that the board keeps.
    fn task_of(&self, o: ObjId) -> Option<&Task>
        requires within { o < length self.now.board.domain.objects }
        requires have { HaveTheirs self.now.board self.now.tasks.items }
        ensures { option_map (λ t. t.now) result
            ≡ either_task (kept_at self.now.tasks.items o) (kept_at self.now.board.kept o) }
    {
        match &self.tasks[o.get()] {
            Some(task) => Some(task),
            None => self.board.kept_task(o),
        }
    }

    /// The objects for which the open action of an object waits.
    pub(crate) fn waits_for(&self, o: ObjId) -> Result<Vec<ObjId>, AllocError>
        requires within { o < length self.now.board.domain.objects }
        requires have { HaveTheirs self.now.board self.now.tasks.items }
        ensures { IfOk result (λ objects. WaitsForAt (setup_of self.now.board)
            (world_of self.now.board self.now.tasks.items) o objects.items) }
    {
        self.told();
        match self.task_of(o) {
            Some(task) => self.board.waits_for(task),
            None => Ok(Vec::new(self.alloc)),
        }
    }
}
