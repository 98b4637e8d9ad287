//! Standard output, as a command writes to it.

use show_json::{JsonKind, JsonWriter};
use std::alloc::Global;
use std::io;
use std::io::Write;

/// A writer as it is, or behind one that writes a line of JSON for each line of text.
pub(crate) enum Shown<'w, W> {
    Text(&'w mut W),
    Json(JsonWriter<'w, W>),
}

impl<W> Drop for Shown<'_, W> {
    fn drop(self) {
        match self {
            Shown::Text(_) | Shown::Json(_) => {}
        }
    }
}

impl<'w, W: Write> Shown<'w, W> {
    /// The writer behind one of JSON, if there is a kind of lines for that.
    pub(crate) fn new(alloc: Global, writer: &'w mut W, json: Option<JsonKind>) -> Shown<'w, W> {
        match json {
            Some(of) => Shown::Json(JsonWriter::new(alloc, writer, of)),
            None => Shown::Text(writer),
        }
    }
}

impl<W: Write> Write for Shown<'_, W> {
    fn write(&mut self, bytes: &[u8]) -> io::Result<usize> {
        match self {
            Shown::Text(writer) => writer.write(bytes),
            Shown::Json(writer) => writer.write(bytes),
        }
    }

    fn flush(&mut self) -> io::Result<()> {
        match self {
            Shown::Text(writer) => writer.flush(),
            Shown::Json(writer) => writer.flush(),
        }
    }
}
