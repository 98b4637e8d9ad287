//! The laws of printing and reading.

ghost use Rattle.sml_round_trip.specs.Laws.{SaidByItsText, RoundTrip, ReadFilesAreWritable};

use sml_read::laws_of_files;
use sml_tree::laws_of_grammar;

/// What holds of the canonical text of every file. It does nothing when called.
pub fn laws_of_printing()
    ensures said { SaidByItsText }
    ensures round_trip { RoundTrip }
    ensures writable { ReadFilesAreWritable }
{
    laws_of_files();
    laws_of_grammar();
}
