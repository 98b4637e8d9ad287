//! The file of a log: how it is opened, and begun.
ghost use Rattle.std.specs.Prelude.{◌≡◌, ◌-◌};
ghost use Rattle.smi_core.specs.declared.schedule.TheConstants.{LONGEST_SCHEDULE};

use crate::host::LiveHost;
use crate::log::LogFile;
use crate::log_watch::{Counted, LogSize, LogWatch};
use crate::wanted_log::WantedLog;
use smi_core::LONGEST_SCHEDULE;
use smirun_commands::{Fault, LogRefusal, is_file_of};
use std::fs::{File, OpenOptions, TryLockError};
use std::io;
use std::io::Write;
use std::path::Path;

/// A log that is open, and locked.
#[derive(Drop)]
pub(crate) struct OpenLog {
    pub(crate) file: File,
    // How many bytes it has, and how many lines these are.
    pub(crate) size: usize,
    pub(crate) lines: usize,
}

impl OpenLog {
    /// How many bytes it may still take.
    pub(crate) fn room(&self) -> usize
        ensures { result ≡ LONGEST_SCHEDULE - self.now.size }
    {
        LONGEST_SCHEDULE.saturating_sub(self.size)
    }

    /// The log to write to, which is put on the disk if that is asked for. Its size is counted from here on.
    pub(crate) fn into_file(self, counted: LogSize, is_synced: bool) -> LogFile<Counted<File>> {
        let OpenLog { file, size, .. } = self;
        LogFile::new(Counted::new(file, counted), size, is_synced)
    }

    /// The watch of a log that has this path.
    pub(crate) fn watch<'a>(
        &self,
        path: &'a str,
        counted: LogSize,
    ) -> Result<LogWatch<'a>, Fault<'a>> {
        match LogWatch::new(path, &self.file, counted) {
            Ok(watch) => Ok(watch),
            Err(error) => Err(unwritten(path, error)),
        }
    }
}

// The streams of the program: none of them can be a log.
const STREAMS: [&str; 3] = ["/dev/stdin", "/dev/stdout", "/dev/stderr"];

/// Opens the file of a log, to read it and to write after it, and locks it; where that is wanted, it is made if there is
/// none. It has to be a regular file, and none of the program's streams, and after it is locked it still has to have the
/// path: who began another log meanwhile may have given the path to that one.
///
/// The faults are `Unreadable` where there is no file, `JournalUnwritten`, and `Log` with `NoFile`, `InUse` or `Moved`.
pub fn open_locked<'a, R: LiveHost>(
    rt: &R,
    path: &'a str,
    is_made: bool,
) -> Result<File, Fault<'a>> {
    let mut how = OpenOptions::new();
    how.read(true).append(true).create(is_made);
    let file = match how.open(rt, path) {
        Ok(file) => file,
        Err(error) if !is_made => return Err(Fault::of_input(path, &error)),
        Err(error) => return Err(unwritten(path, error)),
    };
    match is_log_file(rt, &file) {
        Ok(true) => {}
        Ok(false) => return Err(Fault::Log(path, LogRefusal::NoFile)),
        Err(error) => return Err(unwritten(path, error)),
    }
    match file.try_lock() {
        Ok(()) => still_of_path(rt, path, file),
        Err(TryLockError::WouldBlock) => Err(Fault::Log(path, LogRefusal::InUse)),
        Err(TryLockError::Error(error)) => Err(unwritten(path, error)),
    }
}

// A file that was locked, if it still has the path.
fn still_of_path<'a, R: LiveHost>(rt: &R, path: &'a str, file: File) -> Result<File, Fault<'a>> {
    match file.metadata() {
        Ok(known) if is_file_of(rt, &known, path) => Ok(file),
        Ok(_) => Err(Fault::Log(path, LogRefusal::Moved)),
        Err(error) => Err(unwritten(path, error)),
    }
}

/// The fault of a log that cannot be written.
pub fn unwritten(path: &str, error: io::Error) -> Fault<'_> {
    Fault::JournalUnwritten(path, Some(error))
}

// Whether a file can be a log.
fn is_log_file<R: LiveHost>(rt: &R, file: &File) -> io::Result<bool> {
    let known = file.metadata()?;
    let is_stream = STREAMS.iter().any(|stream| is_file_of(rt, &known, stream));
    Ok(known.is_file() && !is_stream)
}

/// Begins a log that is not resumed.
pub(crate) fn begin_new<'a>(
    wanted: &WantedLog<'a>,
    first: &[u8],
    file: File,
) -> Result<OpenLog, Fault<'a>> {
    match file.metadata() {
        Ok(known) if known.len() == 0 => begin(wanted, first, file),
        Ok(_) => Err(Fault::Log(wanted.path, LogRefusal::NotEmpty)),
        Err(error) => Err(unwritten(wanted.path, error)),
    }
}

/// Writes the first line of a log to its file, which is empty.
pub(crate) fn begin<'a>(
    wanted: &WantedLog<'a>,
    first: &[u8],
    mut file: File,
) -> Result<OpenLog, Fault<'a>> {
    match write_line(&mut file, first) {
        Ok(()) => Ok(OpenLog {
            file,
            size: first.len() + 1,
            lines: 1,
        }),
        Err(error) => Err(unwritten(wanted.path, error)),
    }
}

// Writes a line.
fn write_line<W: Write>(file: &mut W, line: &[u8]) -> io::Result<()> {
    file.write_all(line)?;
    file.write_all(b"\n")
}

/// Puts what a log has on the disk, and the folder that names it, if that is asked for.
pub(crate) fn settle<'a, R: LiveHost>(
    rt: &R,
    wanted: &WantedLog<'a>,
    log: OpenLog,
) -> Result<OpenLog, Fault<'a>> {
    if !wanted.sync {
        return Ok(log);
    }
    match put_on_disk(rt, wanted.path, &log.file) {
        Ok(()) => Ok(log),
        Err(error) => Err(unwritten(wanted.path, error)),
    }
}

// Puts a file on the disk, and the folder that has this path of it, so that a crash of the machine does not lose its
// name.
fn put_on_disk<R: LiveHost>(rt: &R, path: &str, file: &File) -> io::Result<()> {
    file.sync_all()?;
    let folder = match Path::new(path).parent() {
        Some(folder) if !folder.as_str().is_empty() => folder.as_str(),
        _ => ".",
    };
    OpenOptions::new().read(true).open(rt, folder)?.sync_all()
}
