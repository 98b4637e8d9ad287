//! What closes an action from outside: the answer of a device, its fault, and a kill.
ghost use Rattle.smi_world.specs.declared.step.Step.TheVariants as step;
ghost use Rattle.smi_core.specs.Stepping.{Steps};
ghost use Rattle.smi_core.specs.Told.{HaveTheirs};

use crate::errors::{device_error, kill_error};
use crate::machine::Machine;
use smi_board::keep;
use smi_journal_entries::SessionId;
use smi_world::{Answer, StepError};
use sml_tree::Name;

impl Machine {
    /// The device of an object answers that its action ended in a state. Takes no memory.
    pub(crate) fn answer(&mut self, object: &Name, state: &Name) -> Result<Answer, StepError>
        requires { HaveTheirs self.old.board self.old.tasks.items }
        ensures { Steps self.old.board self.old.tasks.items (step.Answer object.now state.now) result
            self.new.board self.new.tasks.items }
    {
        self.told();
        let Some(o) = self.board.domain().object(object) else {
            return Err(StepError::UnknownObject);
        };
        if !self.board.domain().associated(o) {
            return Err(StepError::NotAssociated);
        }
        if !self.board.is_open(o) {
            return Err(StepError::NotOpen);
        }
        let Some(s) = self.board.domain().state(state) else {
            return Err(StepError::NotAState);
        };
        let first = self.board.journal().len();
        match self.board.answered(o, s) {
            Ok(()) => Ok(self.entries_since(first)),
            Err(_) => Err(StepError::NotAState),
        }
    }

    /// The device of an object fails, and the object is killed. Takes no memory.
    pub(crate) fn fault(&mut self, object: &Name) -> Result<Answer, StepError>
        requires { HaveTheirs self.old.board self.old.tasks.items }
        ensures { Steps self.old.board self.old.tasks.items (step.Fault object.now) result
            self.new.board self.new.tasks.items }
    {
        self.told();
        let Some(o) = self.board.domain().object(object) else {
            return Err(StepError::UnknownObject);
        };
        let first = self.board.journal().len();
        match self.board.fault(o) {
            Ok(_) => Ok(self.entries_since(first)),
            Err(why) => Err(device_error(why)),
        }
    }

    /// A session kills an object. A task of it goes.
    pub(crate) fn kill(&mut self, object: &Name, session: SessionId) -> Result<Answer, StepError>
        requires { HaveTheirs self.old.board self.old.tasks.items }
        ensures { Steps self.old.board self.old.tasks.items (step.Kill object.now session) result
            self.new.board self.new.tasks.items }
    {
        self.told();
        let Some(o) = self.board.domain().object(object) else {
            return Err(StepError::UnknownObject);
        };
        let first = self.board.journal().len();
        match self.board.kill(o, session) {
            Ok(_) => {
                keep(&mut self.tasks, o, None);
                Ok(self.entries_since(first))
            }
            Err(why) => Err(kill_error(why)),
        }
    }
}
