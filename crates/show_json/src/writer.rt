//! A writer of lines of text in front of one of lines of JSON.

use crate::forms::JsonKind;
use crate::line::json_line;
use std::alloc::Global;
use std::io;
use std::io::Write;

// From how many bytes on lines of JSON are written, and no more are made.
const FULL: usize = 8_192;

/// A writer that takes lines of text, and writes a line of JSON for each to another writer.
///
/// A line is written once its line feed is taken, in the call that takes it; what stands behind the last line feed is
/// kept until then. Once a write has failed, or there was no memory for one, nothing more is written, and each further
/// call fails for the same cause. The memory is that of one line and of some 8 KiB.
pub struct JsonWriter<'w, W> {
    alloc: Global,
    writer: &'w mut W,
    of: JsonKind,
    // What stands behind the last line feed.
    line: Vec<u8>,
    fault: Option<io::Error>,
}

impl<W> Drop for JsonWriter<'_, W> {
    fn drop(self) {
        let JsonWriter {
            alloc: _,
            writer: _,
            of: _,
            line: _,
            fault: _,
        } = self;
    }
}

impl<'w, W: Write> JsonWriter<'w, W> {
    /// A writer of lines of this kind. No memory is taken yet.
    pub fn new(alloc: Global, writer: &'w mut W, of: JsonKind) -> JsonWriter<'w, W> {
        JsonWriter {
            alloc,
            writer,
            of,
            line: Vec::new(alloc),
            fault: None,
        }
    }

    // Takes a part of a line, with its line feed if that comes. Adds the line of JSON if so.
    fn take(&mut self, part: &[u8], json: &mut Vec<u8>) -> io::Result<()> {
        let Some(end) = part.strip_suffix(b"\n") else {
            return Ok(self.line.extend_from_slice(part)?);
        };
        self.line.extend_from_slice(end)?;
        let made = json_line(self.alloc, self.line.as_slice(), self.of)?;
        self.line.clear();
        json.extend_from_slice(made.as_slice())?;
        json.push(b'\n')?;
        Ok(())
    }

    // Takes bytes, and writes the lines that end in them.
    fn take_all(&mut self, bytes: &[u8]) -> io::Result<()> {
        let mut json = Vec::new(self.alloc);
        for part in bytes.split_inclusive(|byte| *byte == b'\n') {
            self.take(part, &mut json)?;
            if json.len() >= FULL {
                self.writer.write_all(json.as_slice())?;
                json.clear();
            }
        }
        self.writer.write_all(json.as_slice())
    }
}

impl<W: Write> Write for JsonWriter<'_, W> {
    fn write(&mut self, bytes: &[u8]) -> io::Result<usize> {
        if let Some(fault) = &self.fault {
            return Err(*fault);
        }
        match self.take_all(bytes) {
            Ok(()) => Ok(bytes.len()),
            Err(fault) => {
                self.fault = Some(fault);
                Err(fault)
            }
        }
    }

    fn flush(&mut self) -> io::Result<()> {
        match &self.fault {
            Some(fault) => Err(*fault),
            None => self.writer.flush(),
        }
    }
}
