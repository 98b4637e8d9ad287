//! What a request that is made once asked for, and how it was answered.
ghost use Rattle.std.specs.Prelude.{◌≡◌, ◌≢◌, IfNone, IfSome, List, ℕ};
ghost use Rattle.sml_domain.specs.Completing.{Passed as Given};
ghost use Rattle.smi_world.specs.declared.step.Step.TheVariants as asks;
ghost use Rattle.smi_live_accounts.specs.Requested.{IsAccepted, IsRequested, IsUnaccepted};

use smi_core::{Answer, Step, StepError};
use smi_journal_entries::SessionId;
use sml_domain::{Domain, ObjId};

/// What a session asked for: its object, if the domain has it, and the number under which it was accepted, if it was.
#[derive(Clone, Copy)]
pub struct Requested {
    pub sender: SessionId,
    pub object: Option<ObjId>,
    pub number: Option<u64>,
}

// The number under which a request was accepted, if it was.
fn number_of(answer: &Result<Answer, StepError>) -> Option<u64>
    ensures some { IfSome result (IsAccepted answer.now) }
    ensures none { IfNone result (IsUnaccepted answer.now) }
{
    match answer {
        Ok(Answer::Accepted { number, .. }) => Some(*number),
        _ => None,
    }
}

/// What a request asked for, which was answered so. None if the step is no request.
pub fn requested_of(
    domain: &Domain,
    step: &Step,
    answer: &Result<Answer, StepError>,
) -> Option<Requested>
    ensures some { IfSome result (λ q. (k : ℕ) × (x : List ℕ) × (y : List ℕ) × (args : List Given)
        × (step.now ≡ asks.Request k x y args) × IsRequested domain.now k x answer.now q) }
    ensures none { IfNone result ((k : ℕ) (x y : List ℕ) (args : List Given) → step.now ≢ asks.Request k x y args) }
{
    match step {
        Step::Request { sender, object, .. } => Some(Requested {
            sender: *sender,
            object: domain.object(object),
            number: number_of(answer),
        }),
        _ => None,
    }
}
