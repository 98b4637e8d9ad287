//! What an `insert` or a `remove` changes.
ghost use Rattle.std.specs.Prelude.{◌≡◌, ◌<◌, ◌++◌, ◌∷◌, [], IfErr, IfOk, OnErr, OnOk, Some, length};
ghost use Rattle.smi_interp.specs.declared.contact.Contact.TheVariants as contact;
ghost use Rattle.smi_interp.specs.Task.{LeftNames, task_with_change};
ghost use Rattle.smi_board.specs.Turns.{IsOut};
ghost use Rattle.smi_journal_entries.specs.Words.{change_entry};

use crate::board::Board;
use crate::holding::hold_shown;
use crate::looking::free_all;
use smi_interp::Task;
use smi_mail::Mail;
use sml_domain::{ObjId, SetId};

impl<M: Mail> Board<M> {
    // Puts an object into a set or takes it out, as a task that is out asks for. The tasks that are listed with it are
    // looked at again, since names may stand for it no more. If memory runs out, the task is returned.
    pub(crate) fn change(
        &mut self,
        task: Task,
        add: bool,
        member: ObjId,
        set: SetId,
    ) -> Result<Task, Task>
        requires domain { task.domain ≡ self.old.domain }
        requires within { task.turn.object < length self.old.domain.objects }
        requires out { IsOut self.old.domain self.old.journal self.old.params self.old.kept task.turn }
        requires waits { task.pending ≡ Some (contact.Change add member set) }
        requires names { LeftNames task (contact.Change add member set) }
        ensures told { IfOk result (λ t. t ≡ task_with_change task) }
        ensures changed { OnOk result (self.new ≡ record self.old {
          journal = self.old.journal ++ change_entry task.turn.object add member set ∷ [];
        }) }
        ensures back { IfErr result (λ t. t ≡ task) }
        ensures same { OnErr result (self.new ≡ self.old) }
    {
        let _sound = self.domain.objects();
        let o = task.turn().object;
        let Ok(next) = self
            .ledger
            .sets()
            .with_change(self.alloc, &self.domain, add, member, set)
        else {
            return Err(task);
        };
        let Ok(()) = hold_shown(&mut self.ledger, o, 1) else {
            return Err(task);
        };
        free_all(&mut self.candidates, &mut self.holders, member);
        if add {
            self.ledger.add_insert(o, member, set, next);
        } else {
            self.ledger.add_remove(o, member, set, next);
        }
        let mut task = task;
        task.changed();
        Ok(task)
    }
}
