//! What holds of the texts of fronts, as contracts of a function.
ghost use Rattle.smi_log_front.specs.Laws.{NoneGoesOn, NoneIsBadInFront, OneFront};

use smi_carried::laws_of_carried;
use smi_outset_text::laws_of_outset_texts;

/// A text is that of one front, and no line is bad of a front that suits its domain. So a front that was added to a text
/// is read from it again. Where a front was read up to its last line, no front that suits goes on with what follows, so
/// the number that is told is that of the first line which none has there. This does nothing when called.
pub fn laws_of_fronts()
    ensures one { OneFront }
    ensures good { NoneIsBadInFront }
    ensures stop { NoneGoesOn }
{
    laws_of_outset_texts();
    laws_of_carried();
}
