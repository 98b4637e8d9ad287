//! What holds of every schedule, as the contract of a function that does nothing.
ghost use Rattle.smi_core.specs.ScheduleLaws.{LinesJoin, OneOutput};

use sml_text::laws_of_tokens;

/// The lines of a text, joined by line feeds, are the text, and no line has one; and a text has one
/// output from a machine. It does nothing when called.
pub fn every_schedule()
    ensures lines { LinesJoin }
    ensures output { OneOutput }
{
    laws_of_tokens();
}
