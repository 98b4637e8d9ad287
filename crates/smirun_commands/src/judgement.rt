//! What is reported about a domain file.
ghost use Rattle.std.specs.Prelude.{◌≡◌, ◌≢◌, ◌≤◌, IfOk, IsErr, Ok};
ghost use Rattle.std.specs.IoError.{error_kind};
ghost use Rattle.sml_tree.specs.Content.{file_content};
ghost use Rattle.smirun_commands.specs.Judgement.{TextIsJudged, IsJudgedFile, judgement_status};

use crate::status::{DONE, REFUSED};
use sml_check::{CheckError, CheckKind, first_fault};
use sml_read::{ReadError, ReadErrorKind, read};
use sml_tree::SmlFile;
use std::alloc::{AllocError, Allocator, Global};
use std::io::ErrorKind;
use std::{fmt, io};

/// What is reported about a domain file. Its `Display` is the line (docs/FORMATS.md, "Fault lines and exit
/// statuses") without the name of the file.
#[derive(Clone, Copy)]
pub enum FileOutcome {
    /// The file is well-formed.
    Good,
    /// The file cannot be opened or read.
    Unreadable,
    /// The text is no file of the language.
    Read(ReadError),
    /// The file is not well-formed.
    Check(CheckError),
}

impl FileOutcome {
    /// What is reported about a file that could not be opened or read. The error is out of memory.
    pub fn of_input(error: &io::Error) -> Result<FileOutcome, AllocError>
        ensures memory { error_kind error.now ≡ ErrorKind.OutOfMemory → IsErr result }
        ensures unreadable { error_kind error.now ≢ ErrorKind.OutOfMemory
            → result ≡ Ok FileOutcome.Unreadable }
    {
        match error.kind() {
            ErrorKind::OutOfMemory => Err(AllocError),
            _ => Ok(FileOutcome::Unreadable),
        }
    }

    /// The exit status of a command that told nothing worse: 0, and 1 for a refused file.
    pub fn status(&self) -> u8
        ensures status { result ≡ judgement_status self.now }
        ensures range { result ≤ 1 }
    {
        match self {
            FileOutcome::Good => DONE,
            FileOutcome::Unreadable | FileOutcome::Read(_) | FileOutcome::Check(_) => REFUSED,
        }
    }
}

impl fmt::Display for FileOutcome {
    ghost use Rattle.std.specs.Prelude.{Some};
    ghost use Rattle.smirun_commands.specs.Judgement.{judgement_text};

    ghost output = { λ judgement. Some (judgement_text judgement) };

    fn fmt<W: fmt::Write>(&self, f: &mut fmt::Formatter<W>) -> fmt::Result {
        match self {
            FileOutcome::Good => f.write_str("ok"),
            FileOutcome::Unreadable => f.write_str("unreadable"),
            FileOutcome::Read(ReadError { kind, offset }) => {
                write!(f, "read {} {} at {offset}", kind.number(), kind.name())
            }
            FileOutcome::Check(CheckError { kind, name }) => write!(
                f,
                "check {} {} {}",
                kind.number(),
                kind.name(),
                name.as_str()
            ),
        }
    }
}

/// Judges the text of a domain file: the tree is read into memory of `alloc`, and the tables are made in
/// that of `heap`.
pub fn judge<A: Allocator + Clone>(
    heap: Global,
    alloc: A,
    text: &[u8],
) -> Result<FileOutcome, AllocError>
    ensures { IfOk result (λ j. TextIsJudged text.now j) }
{
    match read(alloc, text) {
        Ok(file) => judge_file(heap, &file),
        Err(error) => match error.kind {
            ReadErrorKind::Memory => Err(AllocError),
            _ => Ok(FileOutcome::Read(error)),
        },
    }
}

// Judges a file that was read.
fn judge_file<A: Allocator + Clone>(
    heap: Global,
    file: &SmlFile<A>,
) -> Result<FileOutcome, AllocError>
    ensures { IfOk result (λ j. IsJudgedFile (file_content file.now) j) }
{
    match first_fault(heap, file) {
        Ok(()) => Ok(FileOutcome::Good),
        Err(error) => match error.kind {
            CheckKind::Memory => Err(AllocError),
            _ => Ok(FileOutcome::Check(error)),
        },
    }
}
