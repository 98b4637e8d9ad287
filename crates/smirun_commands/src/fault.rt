//! Why a command ends before it is done.
ghost use Rattle.std.specs.Prelude.{◌≡◌, ◌≢◌, ◌≤◌, ℕ, Some, None};
ghost use Rattle.std.specs.IoError.{error_kind};
ghost use Rattle.smirun_commands.specs.Status.{fault_status};

use crate::judgement::FileOutcome;
use crate::log_refusal::LogRefusal;
use crate::status::{NO_MEMORY, REFUSED, WRONG_WORDS};
use smi_audit::JournalError;
use smi_core::{CoreError, ScheduleFault};
use sml_check::{CheckError, CheckKind};
use sml_read::{ReadError, ReadErrorKind};
use std::error::Error;
use std::io::{ErrorKind, Write};
use std::{fmt, io};

/// Why a command ends before it is done. Its `Display` is the fault line (docs/FORMATS.md, "Fault
/// lines and exit statuses"), without the line feed. Each text is the word of the command line that
/// names the file.
#[derive(Debug, Drop)]
pub enum Fault<'a> {
    /// The text is no file of the language.
    Read(&'a str, ReadError),
    /// The file is not well-formed.
    Check(&'a str, CheckError),
    /// The capacity or the limit of starts is out of range. The numbers of a command line never are.
    WrongNumbers,
    /// The same of the numbers of a run in threads, and of how many workers it has.
    WrongRunNumbers,
    /// The file cannot be opened or read, for this cause where the system told one.
    Unreadable(&'a str, Option<io::Error>),
    /// The schedule, the script or the journal is past its limit.
    TooLong(&'a str),
    /// The journal does not begin with the first line of journals.
    BadHeader(&'a str),
    /// A line of the journal is not an entry, or a line of the script is not one of a script. Lines count from 1.
    BadLine(&'a str, u64),
    /// The journal has fewer lines than this.
    NoLine(&'a str, u64),
    /// The journal or the log would be written over this file, which is read.
    Overwrites(&'a str),
    /// Standard output cannot be written.
    Output,
    /// The file of the journal or of the log cannot be made or written, for this cause where the system told one.
    JournalUnwritten(&'a str, Option<io::Error>),
    /// The log of a live manager is refused, or is written no more.
    Log(&'a str, LogRefusal),
    /// The report of a run lists receipts that its journal does not agree with.
    ReportDiffers,
    /// Out of memory.
    Memory,
}

impl<'a> Fault<'a> {
    /// The exit status.
    pub fn status(&self) -> u8
        ensures status { result ≡ fault_status self.now }
        ensures range { result ≤ 3 }
    {
        match *self {
            Fault::Read(..) | Fault::Check(..) | Fault::BadHeader(_) | Fault::BadLine(..) =>
                REFUSED,
            Fault::Unreadable(..) | Fault::TooLong(_) | Fault::NoLine(..) => REFUSED,
            Fault::Log(..) => REFUSED,
            Fault::Output | Fault::JournalUnwritten(..) | Fault::ReportDiffers => REFUSED,
            Fault::WrongNumbers | Fault::WrongRunNumbers | Fault::Overwrites(_) => WRONG_WORDS,
            Fault::Memory => NO_MEMORY,
        }
    }

    /// Writes the line of the fault, and behind it the cause where the system told one, and returns the status
    /// of the fault. A fault of the writer changes nothing.
    pub fn tell<E: Write>(&self, errors: &mut E) -> u8
        ensures status { result ≡ fault_status self.now }
        ensures range { result ≤ 3 }
    {
        let _ = writeln!(errors, "{self}");
        match self {
            Fault::Unreadable(file, Some(cause)) | Fault::JournalUnwritten(file, Some(cause)) => {
                tell_cause(file, cause, errors);
            }
            _ => {}
        }
        self.status()
    }

    /// The fault of a text that was refused.
    pub fn of_text(file: &'a str, error: ReadError) -> Fault<'a>
        ensures memory { error.kind ≡ ReadErrorKind.Memory → result ≡ Fault.Memory }
        ensures read { error.kind ≢ ReadErrorKind.Memory → result ≡ Fault.Read file.entry error }
    {
        match error.kind {
            ReadErrorKind::Memory => Fault::Memory,
            _ => Fault::Read(file, error),
        }
    }

    /// The fault of a file that has no domain.
    pub fn of_file(file: &'a str, error: CheckError) -> Fault<'a>
        ensures memory { error.kind ≡ CheckKind.Memory → result ≡ Fault.Memory }
        ensures check { error.kind ≢ CheckKind.Memory → result ≡ Fault.Check file.entry error }
    {
        match error.kind {
            CheckKind::Memory => Fault::Memory,
            _ => Fault::Check(file, error),
        }
    }

    /// The fault of a file that could not be opened or read.
    pub fn of_input(file: &'a str, error: &io::Error) -> Fault<'a>
        ensures memory { error_kind error.now ≡ ErrorKind.OutOfMemory → result ≡ Fault.Memory }
        ensures unreadable { error_kind error.now ≢ ErrorKind.OutOfMemory
            → result ≡ Fault.Unreadable file.entry (Some error.now) }
    {
        match error.kind() {
            ErrorKind::OutOfMemory => Fault::Memory,
            _ => Fault::Unreadable(file, Some(*error)),
        }
    }

    /// The fault of a core that could not be made.
    pub fn of_core(error: CoreError) -> Fault<'a>
        ensures numbers { error ≡ CoreError.BadConfig → result ≡ Fault.WrongNumbers }
        ensures memory { error ≡ CoreError.Memory → result ≡ Fault.Memory }
    {
        match error {
            CoreError::BadConfig => Fault::WrongNumbers,
            CoreError::Memory => Fault::Memory,
        }
    }

    /// The fault of a schedule that could not be run to its end.
    pub fn of_schedule(schedule: &'a str, fault: ScheduleFault) -> Fault<'a>
        ensures read { fault ≡ ScheduleFault.Read → result ≡ Fault.Unreadable schedule.entry None }
        ensures write { fault ≡ ScheduleFault.Write → result ≡ Fault.Output }
        ensures too_long { fault ≡ ScheduleFault.TooLong → result ≡ Fault.TooLong schedule.entry }
        ensures memory { fault ≡ ScheduleFault.Memory → result ≡ Fault.Memory }
    {
        match fault {
            ScheduleFault::Read => Fault::Unreadable(schedule, None),
            ScheduleFault::Write => Fault::Output,
            ScheduleFault::TooLong => Fault::TooLong(schedule),
            ScheduleFault::Memory => Fault::Memory,
        }
    }

    /// The fault of a journal that could not be judged.
    pub fn of_journal(journal: &'a str, error: JournalError) -> Fault<'a>
        ensures header { error ≡ JournalError.BadHeader → result ≡ Fault.BadHeader journal.entry }
        ensures line { (number : ℕ) → error ≡ JournalError.BadLine number
            → result ≡ Fault.BadLine journal.entry number }
        ensures memory { error ≡ JournalError.Memory → result ≡ Fault.Memory }
    {
        match error {
            JournalError::BadHeader => Fault::BadHeader(journal),
            JournalError::BadLine(number) => Fault::BadLine(journal, number),
            JournalError::Memory => Fault::Memory,
        }
    }
}

impl fmt::Display for Fault<'_> {
    ghost use Rattle.smirun_commands.specs.Status.{fault_line};

    ghost output = { fault_line };

    fn fmt<W: fmt::Write>(&self, f: &mut fmt::Formatter<W>) -> fmt::Result {
        match self {
            Fault::Read(file, error) => write!(f, "{file} {}", FileOutcome::Read(*error)),
            Fault::Check(file, error) => write!(f, "{file} {}", FileOutcome::Check(*error)),
            Fault::WrongNumbers => f.write_str("capacity is 1 to 1024, max-starts 1 to 1000000"),
            Fault::WrongRunNumbers => {
                f.write_str("workers is 1 to 8, capacity 1 to 1024, max-starts 1 to 1000000")
            }
            Fault::Unreadable(file, _) => write!(f, "{file} unreadable"),
            Fault::TooLong(file) => write!(f, "{file} too long"),
            Fault::BadHeader(file) => write!(f, "{file} bad header"),
            Fault::BadLine(file, number) => write!(f, "{file} bad line {number}"),
            Fault::NoLine(file, number) => write!(f, "{file} has no line {number}"),
            Fault::Overwrites(file) => {
                write!(f, "{file} is read, so that no journal is written to it")
            }
            Fault::Output | Fault::JournalUnwritten(..) => f.write_str("output fault"),
            Fault::Log(file, refusal) => write!(f, "{file} {refusal}"),
            Fault::ReportDiffers => f.write_str("report differs"),
            Fault::Memory => f.write_str("memory"),
        }
    }
}

impl Error for Fault<'_> {}

/// Writes why a file cannot be opened, read or written, in the words of the system. A fault of the writer
/// changes nothing.
pub fn tell_cause<E: Write>(file: &str, cause: &io::Error, errors: &mut E) {
    let _ = writeln!(errors, "{file}: {cause}");
}
