//! Objects at which no start and no go changes anything.
ghost use Rattle.std.specs.Prelude.{◌≡◌, ◌<◌, ℕ, List, Some, length, true};
ghost use Rattle.sml_domain.specs.Lookups.{object_named};
ghost use Rattle.smi_core.specs.Machines.{setup_of, world_of};
ghost use Rattle.smi_core.specs.Stepping.{RestsAt};
ghost use Rattle.smi_core.specs.Told.{HaveTheirs};

use crate::machine::Machine;
use sml_domain::ObjId;

impl Machine {
    /// Whether it is known that neither the start nor the go of an object would change anything.
    pub(crate) fn rests_at(&self, o: ObjId) -> bool
        requires within { o < length self.now.board.domain.objects }
        requires have { HaveTheirs self.now.board self.now.tasks.items }
        ensures { result ≡ true → (x : List ℕ) → object_named self.now.board.domain x ≡ Some o
            → RestsAt (setup_of self.now.board) (world_of self.now.board self.now.tasks.items) x }
    {
        self.told();
        self.board.waits_next(o);
        if self.tasks[o.get()].is_some() {
            return false;
        }
        if self.board.may_go_on(o) {
            return false;
        }
        match self.board.start_refused(o) {
            Some(_) => true,
            None => false,
        }
    }
}
