//! For whom a task waits.
ghost use Rattle.std.specs.Prelude.{◌≡◌, ◌<◌, IfOk, length, option_map};
ghost use Rattle.std.specs.List.{All};
ghost use Rattle.smi_board.specs.Awaiting.{TaskWaitsFor, in_the_way};
ghost use Rattle.smi_board.specs.Boards.{kept_at, own_at};
ghost use Rattle.smi_board.specs.Turns.{IsOf};

use crate::board::Board;
use smi_interp::{Task, objects_for};
use smi_ledger::Ledger;
use smi_mail::Mail;
use sml_domain::ObjId;
use std::alloc::{AllocError, Global};

// Those of some objects that are not clear for another, in their order.
fn busy_among(
    alloc: Global,
    ledger: &Ledger,
    o: ObjId,
    objects: &[ObjId],
) -> Result<Vec<ObjId>, AllocError>
    requires within { o < length ledger.now.domain.objects }
    requires there { All (λ x. x < length ledger.now.domain.objects) objects.now }
    ensures { IfOk result (λ busy. busy.items ≡ in_the_way ledger.now.journal o objects.now) }
{
    let mut busy = Vec::new(alloc);
    for object in objects {
        if !ledger.is_clear(o, *object) {
            busy.push(*object)?;
        }
    }
    Ok(busy)
}

impl<M: Mail> Board<M> {
    /// The task that is kept of an object. The cost is constant.
    pub fn kept_task(&self, o: ObjId) -> Option<&Task>
        requires { o < length self.now.domain.objects }
        ensures { option_map (λ t. t.now) result ≡ kept_at self.now.kept o }
    {
        self.kept[o.get()].as_ref()
    }

    /// The objects for which the task of an open action waits, each once, in the order of the names of its next `if` or
    /// `wait`; none where something other than a `set` comes first. It may be kept or be out.
    ///
    /// The cost is that of `Task::reads_next` and of the objects that the names stand for, by that of the objects. An
    /// error means out of memory.
    pub fn waits_for(&self, task: &Task) -> Result<Vec<ObjId>, AllocError>
        requires within { task.now.turn.object < length self.now.domain.objects }
        requires own { IsOf self.now.domain self.now.journal (own_at self.now.params task.now.turn.object)
            task.now.turn.object task.now }
        ensures { IfOk result (λ objects.
            TaskWaitsFor self.now.domain self.now.journal task.now objects.items) }
    {
        let _sound = self.domain.objects();
        let sets = self.ledger.sets();
        let o = task.turn().object;
        let names = task.reads_next(self.alloc)?;
        let objects = objects_for(self.alloc, self.ledger.domain(), sets, &names)?;
        busy_among(self.alloc, &self.ledger, o, &objects)
    }
}
