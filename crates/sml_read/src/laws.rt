//! The laws of files.

ghost use Rattle.sml_read.specs.Promise.{OneFile, OneFault, NoFault};

use sml_text::laws_of_tokens;

/// What holds of the files of every text. It does nothing when called.
pub fn laws_of_files()
    ensures one_file { OneFile }
    ensures one_fault { OneFault }
    ensures no_fault { NoFault }
{
    laws_of_tokens();
}
