//! What holds of what a manager keeps, as the contract of a function that does nothing.
ghost use Rattle.smi_live_accounts.specs.Laws.{OneStepIsNoted, OneStepReaches, RequestsAreAnswered};

use smi_request_fates::laws_of_fates;
use smi_world::every_run;

/// After one step of a core what is kept says what the entries before the step say, so that it can be noted. A world
/// that is reached by steps is followed by one that is. What was told of a request says what became of it.
pub fn laws_of_accounts()
    ensures noted { OneStepIsNoted }
    ensures reaches { OneStepReaches }
    ensures answered { RequestsAreAnswered }
{
    laws_of_fates();
    every_run();
}
