//! Whether a path is that of a file that is read.
ghost use Rattle.std.specs.Prelude.{◌≡◌, true};
ghost use Rattle.smirun_commands.specs.Paths.{IsReadAs};

use crate::text::STANDARD_INPUT;
use std::fs;
use std::fs::{Files, Metadata};
use std::os::unix::fs::MetadataExt;

/// Whether one of two files that are read under words of the command line has this path too, as `is_read_from` says.
pub fn is_one_read<R: Files>(rt: &R, file: &str, other: &str, path: &str) -> bool
    ensures file { IsReadAs file.now path.now → result ≡ true }
    ensures other { IsReadAs other.now path.now → result ≡ true }
{
    is_read_from(rt, file, path) || is_read_from(rt, other, path)
}

/// Whether the file that is read under a word of the command line has this path too, as a link may have. Standard
/// input is no file of a path. One text is one path, also where no file is there; of two texts, a file that is not
/// there, or that the system tells nothing of, is another one. No memory is taken.
pub fn is_read_from<R: Files>(rt: &R, word: &str, path: &str) -> bool
    ensures { IsReadAs word.now path.now → result ≡ true }
{
    if word == STANDARD_INPUT {
        return false;
    }
    word == path || has_both(rt, word, path)
}

// Whether two paths are those of one file.
fn has_both<R: Files>(rt: &R, path: &str, other: &str) -> bool {
    match (fs::metadata(rt, path), fs::metadata(rt, other)) {
        (Ok(one), Ok(other)) => are_of_one(&one, &other),
        _ => false,
    }
}

/// Whether a path is that of a file of which the system told this, as a link may be. No memory is taken.
pub fn is_file_of<R: Files>(rt: &R, known: &Metadata, path: &str) -> bool {
    match fs::metadata(rt, path) {
        Ok(found) => are_of_one(known, &found),
        Err(_) => false,
    }
}

// Whether what the system tells is of one file. (Where the system numbers none, the number is 0.)
fn are_of_one(one: &Metadata, other: &Metadata) -> bool {
    one.ino() != 0 && one.ino() == other.ino() && one.dev() == other.dev()
}
