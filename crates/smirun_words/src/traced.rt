//! A writer that keeps why it failed.

use smirun_commands::tell_cause;
use std::io;
use std::io::Write;

// What standard output is called where its cause is told.
pub(crate) const STANDARD_OUTPUT: &str = "standard output";

/// A writer, and the error of its first call that failed, if one did. So a fault of standard output can be reported
/// with its cause.
pub(crate) struct TracedWriter<'w, W> {
    writer: &'w mut W,
    cause: Option<io::Error>,
}

impl<W> Drop for TracedWriter<'_, W> {
    fn drop(self) {
        let TracedWriter {
            writer: _,
            cause: _,
        } = self;
    }
}

impl<'w, W> TracedWriter<'w, W> {
    /// A writer that has not failed.
    pub(crate) fn new(writer: &'w mut W) -> TracedWriter<'w, W> {
        TracedWriter {
            writer,
            cause: None,
        }
    }

    /// Writes the cause, if there is one. A fault of the writer changes nothing.
    pub(crate) fn tell<E: Write>(&self, errors: &mut E) {
        if let Some(cause) = &self.cause {
            tell_cause(STANDARD_OUTPUT, cause, errors);
        }
    }

    // Keeps an error, unless one was kept before.
    fn keep(&mut self, error: &io::Error) {
        if self.cause.is_none() {
            self.cause = Some(*error);
        }
    }
}

impl<W: Write> Write for TracedWriter<'_, W> {
    fn write(&mut self, bytes: &[u8]) -> io::Result<usize> {
        let written = self.writer.write(bytes);
        if let Err(error) = &written {
            self.keep(error);
        }
        written
    }

    fn flush(&mut self) -> io::Result<()> {
        let flushed = self.writer.flush();
        if let Err(error) = &flushed {
            self.keep(error);
        }
        flushed
    }
}
