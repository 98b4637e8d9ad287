//! A live manager whose lines another thread reads, and whose output looks into its log.

use crate::place::Place;
use smirun_commands::{Advice, Fault};
use smirun_live::{LiveHost, LiveOptions, run_live_as_lines_come};
use std::alloc::{AllocError, Global};
use std::fs::{File, Files};
use std::io::{ErrorKind, Read, Write};
use std::{fs, io};

/// Gives a text, and then ends or fails.
#[derive(Drop)]
pub struct Lines {
    text: Vec<u8>,
    at: usize,
    fails: bool,
}

impl Lines {
    /// Those of a text.
    pub fn new(alloc: Global, text: &[u8], fails: bool) -> Result<Lines, AllocError> {
        Ok(Lines {
            text: Vec::from_slice(alloc, text)?,
            at: 0,
            fails,
        })
    }
}

impl Read for Lines {
    fn read(&mut self, buf: &mut [u8]) -> io::Result<usize> {
        let rest = self.text.get(self.at..).unwrap_or(&[]);
        if rest.is_empty() && self.fails {
            return Err(io::Error::from(ErrorKind::Other));
        }
        let count = rest.len().min(buf.len());
        for (to, from) in buf.iter_mut().zip(rest) {
            *to = *from;
        }
        self.at = self.at.saturating_add(count);
        Ok(count)
    }
}

// Takes all, and looks each time whether the log has a line already for each line that is written.
#[derive(Drop)]
struct Watching<'a, R: Drop> {
    rt: R,
    log: &'a str,
    written: Vec<u8>,
    is_late: bool,
}

fn lines_in(bytes: &[u8]) -> usize {
    bytes.iter().filter(|b| **b == b'\n').count()
}

impl<R: Files<File = File> + AllocGlobal + Drop> Write for Watching<'_, R> {
    fn write(&mut self, bytes: &[u8]) -> io::Result<usize> {
        self.written.extend_from_slice(bytes)?;
        let log = fs::read(&self.rt, self.log)?;
        // (the log has its first line more)
        if lines_in(&log) <= lines_in(&self.written) {
            self.is_late = true;
        }
        Ok(bytes.len())
    }

    fn flush(&mut self) -> io::Result<()> {
        Ok(())
    }
}

/// What the lines of a row are done with.
pub fn options<'a>(file: &'a str, log: &'a str) -> LiveOptions<'a> {
    LiveOptions {
        file,
        log: Some(log),
        resume: false,
        sync: false,
        in_turn: false,
        capacity: 16,
        max_starts: 1_000_000,
        explain: false,
    }
}

/// Tells how a manager ended.
pub fn tell_end(
    alloc: Global,
    place: &mut Place,
    ended: &Result<(), Fault<'_>>,
) -> Result<(), AllocError> {
    match ended {
        Ok(()) => place.tell_number(alloc, "  = ", 0),
        Err(fault) => {
            let line = format!(in alloc; "{fault}\n")?;
            place.tell_errors(line.as_bytes())?;
            place.tell_number(alloc, "  = ", usize::from(fault.status()))
        }
    }
}

// Whether the last command line wrote these bytes.
fn is_last_output(place: &Place, written: &[u8]) -> bool {
    place.output.as_slice() == written
}

/// Runs a manager on a domain, with a log: FILE LOG. Its lines are those of the text at hand, which another thread
/// reads, and after which the reader ends or fails. Tells how it ended; whether it wrote what the last command line
/// did; and whether each line of its output had its line in the log by then, of lines that write one line each.
pub fn call_arriving<R: LiveHost + 'static>(
    rt: &R,
    words: &str,
    fails: bool,
    place: &mut Place,
) -> io::Result<()> {
    let (file, log) = words.split_once(' ').unwrap_or((words, ""));
    let input = Lines::new(rt.alloc(), place.text.as_slice(), fails)?;
    let mut output = Watching {
        rt: *rt,
        log,
        written: Vec::new(rt.alloc()),
        is_late: false,
    };
    place.is_open = false;
    let mut errors = Vec::new(rt.alloc());
    let mut advice = Advice::new(rt.alloc(), false);
    let wanted = options(file, log);
    let ended = run_live_as_lines_come(rt, &wanted, input, &mut output, &mut errors, &mut advice);
    tell_end(rt.alloc(), place, &ended)?;
    let is_same = is_last_output(place, &output.written);
    place.tell_whether(is_same)?;
    place.tell_whether(!output.is_late)?;
    Ok(())
}
