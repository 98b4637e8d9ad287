//! Requests: a session asks an object for an action.
ghost use Rattle.smi_world.specs.declared.step.Step.TheVariants as step;
ghost use Rattle.smi_core.specs.Stepping.{Steps};
ghost use Rattle.smi_core.specs.Told.{HaveTheirs};

use crate::errors::request_error;
use crate::machine::Machine;
use smi_journal_entries::{Passed, SessionId, address};
use smi_world::{Answer, StepError};
use sml_tree::Name;

impl Machine {
    /// A session asks an object for an action. The cost is that of `address`.
    pub(crate) fn request(
        &mut self,
        sender: SessionId,
        object: &Name,
        action: &Name,
        passed: &[Passed],
    ) -> Result<Answer, StepError>
        requires { HaveTheirs self.old.board self.old.tasks.items }
        ensures { Steps self.old.board self.old.tasks.items
            (step.Request sender object.now action.now passed.now) result
            self.new.board self.new.tasks.items }
    {
        self.told();
        let addressed = address(
            self.alloc,
            self.board.domain(),
            sender,
            object,
            action,
            passed,
        )?;
        let args = addressed.args;
        match self.board.request(addressed.object, addressed.envelope) {
            Ok(number) => Ok(Answer::Accepted { number, args }),
            Err((why, _)) => Err(request_error(why)),
        }
    }
}
