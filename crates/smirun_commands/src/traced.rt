//! A reader that keeps why it failed.

use std::io;
use std::io::Read;

/// A reader, and the error of its last read, if that failed. So a fault of a schedule, which only says that the reader
/// failed, can be reported with its cause.
pub(crate) struct TracedReader<'r, I> {
    reader: &'r mut I,
    pub(crate) cause: Option<io::Error>,
}

impl<I> Drop for TracedReader<'_, I> {
    fn drop(self) {
        let TracedReader {
            reader: _,
            cause: _,
        } = self;
    }
}

impl<'r, I> TracedReader<'r, I> {
    /// A reader that has not failed.
    pub(crate) fn new(reader: &'r mut I) -> TracedReader<'r, I> {
        TracedReader {
            reader,
            cause: None,
        }
    }
}

impl<I: Read> Read for TracedReader<'_, I> {
    fn read(&mut self, buf: &mut [u8]) -> io::Result<usize> {
        let read = self.reader.read(buf);
        self.cause = match &read {
            Ok(_) => None,
            Err(error) => Some(*error),
        };
        read
    }
}
