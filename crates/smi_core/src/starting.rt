//! Starts: an object takes the request that was accepted first of those that wait.
ghost use Rattle.std.specs.Prelude.{◌<◌, length};
ghost use Rattle.smi_world.specs.declared.step.Step.TheVariants as step;
ghost use Rattle.smi_core.specs.Stepping.{Steps, StepsNamed};
ghost use Rattle.smi_core.specs.Told.{HaveTheirs};

use crate::errors::start_error;
use crate::machine::Machine;
use smi_board::{Started, keep};
use smi_world::{Answer, StepError};
use sml_domain::ObjId;
use sml_tree::Name;

impl Machine {
    /// An object starts the next request. The cost is the count of objects, and that of the object's parameters.
    pub(crate) fn start(&mut self, object: &Name) -> Result<Answer, StepError>
        requires { HaveTheirs self.old.board self.old.tasks.items }
        ensures { Steps self.old.board self.old.tasks.items (step.Start object.now) result
            self.new.board self.new.tasks.items }
    {
        let Some(o) = self.board.domain().object(object) else {
            return Err(StepError::UnknownObject);
        };
        self.start_at(o)
    }

    /// The object of a number starts the next request. The cost is the count of the object's parameters.
    pub(crate) fn start_at(&mut self, o: ObjId) -> Result<Answer, StepError>
        requires within { o < length self.old.board.domain.objects }
        requires have { HaveTheirs self.old.board self.old.tasks.items }
        ensures { StepsNamed (λ x. step.Start x) self.old.board self.old.tasks.items o result
            self.new.board self.new.tasks.items }
    {
        self.told();
        let first = self.board.journal().len();
        match self.board.start(o) {
            Ok(Started::Run(task)) => {
                keep(&mut self.tasks, o, Some(task));
                self.told();
                Ok(self.entries_since(first))
            }
            Ok(Started::Perform { .. }) => {
                self.told();
                Ok(self.entries_since(first))
            }
            Ok(Started::Skipped) => {
                self.told();
                Ok(self.entries_since(first))
            }
            Err(why) => Err(start_error(why)),
        }
    }
}
