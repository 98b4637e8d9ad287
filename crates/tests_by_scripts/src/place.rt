//! What a script works with.

use crate::bytes::escape;
use std::alloc::{AllocError, Global};
use std::str;

/// What the next command line finds, and what the last one told.
#[derive(Drop)]
pub struct Place {
    /// The text that is at hand: the standard input of a command line.
    pub text: Vec<u8>,
    /// Whether a line that is added goes behind those of the text, and does not begin another.
    pub is_open: bool,
    /// What the last command line wrote as its output.
    pub output: Vec<u8>,
    /// What the last line of the script must tell.
    pub must: Vec<u8>,
    /// What it told.
    pub told: Vec<u8>,
}

impl Place {
    /// Nothing yet.
    pub fn new(alloc: Global) -> Self {
        Place {
            text: Vec::new(alloc),
            is_open: false,
            output: Vec::new(alloc),
            must: Vec::new(alloc),
            told: Vec::new(alloc),
        }
    }

    /// Whether the last line of the script told what it must.
    pub fn is_as_it_must_be(&self) -> bool {
        self.must.as_slice() == self.told.as_slice()
    }

    /// Adds a line to what the last line of the script must tell.
    pub fn add_answer(&mut self, answer: &str) -> Result<(), AllocError> {
        self.must.extend_from_slice(answer.as_bytes())?;
        self.must.push(b'\n')?;
        Ok(())
    }

    /// Whether the last output has a text.
    pub fn has(&self, part: &str) -> bool {
        match str::from_utf8(self.output.as_slice()) {
            Ok(text) => text.contains(part),
            Err(_) => part.is_empty(),
        }
    }

    /// Tells a line behind a mark.
    pub fn tell_line(&mut self, mark: &str, line: &str) -> Result<(), AllocError> {
        tell(&mut self.told, mark.as_bytes(), line.as_bytes())
    }

    /// Tells a number behind a mark.
    pub fn tell_number(
        &mut self,
        alloc: Global,
        mark: &str,
        number: usize,
    ) -> Result<(), AllocError> {
        let digits = format!(in alloc; "{number}")?;
        self.tell_line(mark, digits.as_str())
    }

    /// Tells the answer to a question.
    pub fn tell_whether(&mut self, is_so: bool) -> Result<(), AllocError> {
        self.tell_line("  ", if is_so { "yes" } else { "no" })
    }

    /// Tells all lines of the last output, and then that its last line has no end, if so.
    pub fn tell_output(&mut self) -> Result<(), AllocError> {
        tell_lines(&mut self.told, b"    ", self.output.as_slice())
    }

    /// Tells all lines of what was written for errors.
    pub fn tell_errors(&mut self, errors: &[u8]) -> Result<(), AllocError> {
        tell_lines(&mut self.told, b"  ! ", errors)
    }

    /// Adds a line to the text at hand. Line feeds are only between its lines.
    pub fn add(&mut self, line: &str) -> Result<(), AllocError> {
        if self.is_open {
            self.text.push(b'\n')?;
        } else {
            self.text.clear();
            self.is_open = true;
        }
        self.text.extend_from_slice(line.as_bytes())
    }
}

fn tell(told: &mut Vec<u8>, mark: &[u8], line: &[u8]) -> Result<(), AllocError> {
    told.extend_from_slice(mark)?;
    escape(told, line)?;
    told.push(b'\n')?;
    Ok(())
}

fn tell_lines(told: &mut Vec<u8>, mark: &[u8], text: &[u8]) -> Result<(), AllocError> {
    for line in text.split_inclusive(|byte| *byte == b'\n') {
        match line.strip_suffix(b"\n") {
            Some(line) => tell(told, mark, line)?,
            None => {
                tell(told, mark, line)?;
                tell(told, mark, b"(no line feed)")?;
            }
        }
    }
    Ok(())
}
