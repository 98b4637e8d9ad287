//! The laws of files that were read.

ghost use Rattle.sml_load.specs.Laws.{ReadFilesHaveTexts};

use sml_round_trip::laws_of_printing;

/// What `check` asks of a file holds of each that was read. It does nothing when called.
pub fn laws_of_read_files()
    ensures texts { ReadFilesHaveTexts }
{
    laws_of_printing();
}
