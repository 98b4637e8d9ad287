//! Whether a log still is what its manager writes.
ghost use Rattle.std.specs.Prelude.{◌≡◌, ◌≢◌, None, true};

use crate::host::WatchHost;
use crate::log::Unbuffered;
use smirun_commands::{LogRefusal, is_file_of};
use std::fs::{File, Metadata};
use std::io::Write;
use std::os::unix::fs::MetadataExt;
use std::sync::Arc;
use std::sync::atomic::{AtomicU64, Ordering};
use std::time::{Duration, Instant};
use std::{fs, io};

/// How long it is not looked at again.
pub(crate) fn look_every() -> Duration {
    Duration::from_secs(1)
}

/// How many bytes a log has, by what was written to it.
pub(crate) type LogSize = Arc<AtomicU64>;

// Counts what a writer took.
fn count(size: &AtomicU64, taken: io::Result<usize>) -> io::Result<usize>
    ensures { result ≡ taken }
{
    if let Ok(count) = &taken {
        size.fetch_add(*count as u64, Ordering::Relaxed);
    }
    taken
}

/// A writer to a log that counts what it took.
#[derive(Drop)]
pub(crate) struct Counted<F> {
    writer: F,
    size: LogSize,
}

impl<F> Counted<F> {
    /// That of a writer to a log that has this size.
    pub(crate) fn new(writer: F, size: LogSize) -> Counted<F> {
        Counted { writer, size }
    }
}

impl<F: Write> Write for Counted<F> {
    ghost contents = { λ c. F.contents c.writer };

    fn write(&mut self, bytes: &[u8]) -> io::Result<usize> {
        let taken = self.writer.write(bytes);
        count(&self.size, taken)
    }

    fn flush(&mut self) -> io::Result<()> {
        self.writer.flush()
    }
}

impl<F: Unbuffered> Unbuffered for Counted<F> {
    ghost on_disk = { λ c. F.on_disk c.writer };

    fn send(&mut self, bytes: &[u8]) -> io::Result<usize> {
        let taken = self.writer.send(bytes);
        count(&self.size, taken)
    }

    fn sync(&mut self) -> io::Result<()> {
        self.writer.sync()
    }
}

/// What is looked at once a second: whether the path of a log is that of the file that is written, and whether that has
/// what was written and nothing else. (docs/FORMATS.md, "The log".)
#[derive(Drop)]
pub(crate) struct LogWatch<'a> {
    path: &'a str,
    file: Metadata,
    size: LogSize,
    last: Option<Instant>,
    found: Option<LogRefusal>,
}

impl<'a> LogWatch<'a> {
    /// That of a log that is open. The error is that of the system.
    pub(crate) fn new(path: &'a str, file: &File, size: LogSize) -> io::Result<LogWatch<'a>> {
        Ok(LogWatch {
            path,
            file: file.metadata()?,
            size,
            last: None,
            found: None,
        })
    }

    // Whether it is time to look. (Where there is no clock, it always is.)
    fn is_due<R: WatchHost>(&mut self, rt: &R) -> bool {
        let Ok(now) = Instant::now(rt) else {
            return true;
        };
        if let Some(last) = self.last {
            if now.saturating_duration_since(last) < look_every() {
                return false;
            }
        }
        self.last = Some(now);
        true
    }

    // What is to be found now. (Where the system numbers no files, it is not known which one a path names.)
    fn look<R: WatchHost>(&self, rt: &R) -> Option<LogRefusal> {
        if self.file.ino() != 0 && !is_file_of(rt, &self.file, self.path) {
            return Some(LogRefusal::Moved);
        }
        match fs::metadata(rt, self.path) {
            Ok(now) if now.len() == self.size.load(Ordering::Relaxed) => None,
            Ok(_) => Some(LogRefusal::Changed),
            Err(_) => Some(LogRefusal::Moved),
        }
    }

    /// Looks, if a second is over since the last look. Whether something was found, then or before.
    pub(crate) fn finds<R: WatchHost>(&mut self, rt: &R) -> bool
        ensures { result ≡ true → self.new.found ≢ None }
    {
        if self.found.is_none() && self.is_due(rt) {
            self.found = self.look(rt);
        }
        self.found.is_some()
    }

    /// What was found.
    pub(crate) fn found(&self) -> Option<LogRefusal>
        ensures { result ≡ self.now.found }
    {
        self.found
    }
}
