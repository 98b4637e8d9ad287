//! Standard error with colours, for a person who reads it.

use std::alloc::{AllocError, Global};
use std::io::Write;
use std::{io, str};

// How a terminal is told to write in bold, in bold red and in green, and as before.
const BOLD: &str = "\x1b[1m";

const RED: &str = "\x1b[1;31m";

const GREEN: &str = "\x1b[32m";

const PLAIN: &str = "\x1b[0m";

// What stands before the name that was meant.
const MEANT: &str = "did you mean ";

/// A writer in front of another, which colours what it is given where that is wanted: places, carets, the word `error`
/// of wrong command lines, and what could have been meant.
///
/// It knows the forms of lines (docs/FORMATS.md, "Explanations"), and what is explained comes in one call. So nothing
/// is kept from one call to the next, and what has no line feed yet is passed on at once. Where there is no memory for
/// the colours, there are none.
pub(crate) struct Coloured<'w, W> {
    alloc: Global,
    writer: &'w mut W,
    is_wanted: bool,
}

impl<W> Drop for Coloured<'_, W> {
    fn drop(self) {
        let Coloured {
            alloc: _,
            writer: _,
            is_wanted: _,
        } = self;
    }
}

impl<'w, W: Write> Coloured<'w, W> {
    /// A writer with colours, or without if they are not wanted.
    pub(crate) fn new(alloc: Global, writer: &'w mut W, is_wanted: bool) -> Coloured<'w, W> {
        Coloured {
            alloc,
            writer,
            is_wanted,
        }
    }

    // The bytes with colours. Nothing if none are wanted, and if the bytes are no text.
    fn coloured(&self, bytes: &[u8]) -> Option<String> {
        if !self.is_wanted {
            return None;
        }
        let text = str::from_utf8(bytes).ok()?;
        coloured_lines(self.alloc, text).ok()
    }
}

impl<W: Write> Write for Coloured<'_, W> {
    fn write(&mut self, bytes: &[u8]) -> io::Result<usize> {
        match self.coloured(bytes) {
            Some(text) => {
                self.writer.write_all(text.as_bytes())?;
                Ok(bytes.len())
            }
            None => self.writer.write(bytes),
        }
    }

    fn flush(&mut self) -> io::Result<()> {
        self.writer.flush()
    }
}

// The lines with colours. Behind a line with a place comes one that is quoted, which stays as it is.
fn coloured_lines(alloc: Global, text: &str) -> Result<String, AllocError> {
    let mut coloured = String::new(alloc);
    let mut is_quoted = false;
    for line in text.split_inclusive('\n') {
        if is_quoted {
            coloured.push_str(line)?;
            is_quoted = false;
        } else {
            is_quoted = add_line(&mut coloured, line)?;
        }
    }
    Ok(coloured)
}

// Adds a line with colours, and tells whether a place stands in front of it.
fn add_line(coloured: &mut String, line: &str) -> Result<bool, AllocError> {
    if let Some((place, sentence)) = split_place(line) {
        write!(coloured, "{BOLD}{place}:{PLAIN} ")?;
        add_sentence(coloured, sentence)?;
        return Ok(true);
    }
    if let Some(blanks) = before_caret(line) {
        write!(coloured, "{blanks}{RED}^{PLAIN}\n")?;
    } else if let Some(rest) = line.strip_prefix("error:") {
        write!(coloured, "{RED}error:{PLAIN}{rest}")?;
    } else if let Some(rest) = line.strip_prefix("  tip:") {
        write!(coloured, "  {GREEN}tip:{PLAIN}{rest}")?;
    } else {
        coloured.push_str(line)?;
    }
    Ok(false)
}

// Adds a sentence. What could have been meant is green, if it ends in that.
fn add_sentence(coloured: &mut String, sentence: &str) -> Result<(), AllocError> {
    match split_meant(sentence) {
        Some((front, meant)) => write!(coloured, "{front}{MEANT}{GREEN}{meant}{PLAIN}?\n"),
        None => coloured.push_str(sentence),
    }
}

// A sentence cut at `did you mean NAME?`, if that is how it ends.
fn split_meant(sentence: &str) -> Option<(&str, &str)> {
    let question = sentence.strip_suffix("?\n")?;
    question.rsplit_once(MEANT)
}

// A line cut at `PATH:LINE:COLUMN: `, if that is how it begins.
fn split_place(line: &str) -> Option<(&str, &str)> {
    let (place, sentence) = line.split_once(": ")?;
    let (front, column) = place.rsplit_once(':')?;
    let (_, number) = front.rsplit_once(':')?;
    if is_number(number) && is_number(column) {
        Some((place, sentence))
    } else {
        None
    }
}

// Whether a word is a number.
fn is_number(word: &str) -> bool {
    !word.is_empty() && word.bytes().all(|byte| byte.is_ascii_digit())
}

// The blanks before the caret of a line that has nothing else.
fn before_caret(line: &str) -> Option<&str> {
    let blanks = line.strip_suffix("^\n")?;
    if blanks.bytes().all(|byte| byte == b' ' || byte == b'\t') {
        Some(blanks)
    } else {
        None
    }
}
