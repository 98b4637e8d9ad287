//! The refusals of a board, as those of steps.
ghost use Rattle.std.specs.Prelude.{◌≡◌};
ghost use Rattle.smi_core.specs.Errors as says;

use smi_board::{AnswerError, KillError, RequestRefusal, StartError};
use smi_world::StepError;

// Why nothing was started.
pub(crate) fn start_error(why: StartError) -> StepError
    ensures { result ≡ says.start_error why }
{
    match why {
        StartError::Memory => StepError::Memory,
        StartError::Limit => StepError::Limit,
        StartError::Dead => StepError::Dead,
        StartError::AlreadyOpen => StepError::AlreadyOpen,
        StartError::Empty => StepError::Empty,
    }
}

// Why a device's answer or fault was not taken.
pub(crate) fn device_error(why: AnswerError) -> StepError
    ensures { result ≡ says.device_error why }
{
    match why {
        AnswerError::NotAssociated => StepError::NotAssociated,
        AnswerError::NotOpen => StepError::NotOpen,
        AnswerError::NotAState => StepError::NotAState,
    }
}

// Why an object was not killed.
pub(crate) fn kill_error(why: KillError) -> StepError
    ensures { result ≡ says.kill_error why }
{
    match why {
        KillError::Memory => StepError::Memory,
        KillError::AlreadyDead(place) => StepError::AlreadyDead(place),
    }
}

// Why a request was not taken.
pub(crate) fn request_error(why: RequestRefusal) -> StepError
    ensures { result ≡ says.request_error why }
{
    match why {
        RequestRefusal::Memory => StepError::Memory,
        RequestRefusal::Dead => StepError::Dead,
        RequestRefusal::Full => StepError::Full,
    }
}
