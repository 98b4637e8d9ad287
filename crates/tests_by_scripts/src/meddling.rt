//! A live manager whose log somebody else moves or adds to while it runs.

use crate::arriving::{Lines, options, tell_end};
use crate::place::Place;
use smirun_commands::Advice;
use smirun_live::{LiveHost, run_live_as_lines_come};
use std::fs::{File, Files, OpenOptions};
use std::io::Write;
use std::{fs, io};

// Takes all, and at the first time meddles with a log: moves it to a path, or adds a line to it.
#[derive(Drop)]
struct Meddling<'a, R: Drop> {
    rt: R,
    log: &'a str,
    moves_to: Option<&'a str>,
    is_done: bool,
}

impl<R: Files<File = File> + Drop> Meddling<'_, R> {
    fn meddle(&self) -> io::Result<()> {
        match self.moves_to {
            Some(path) => fs::rename(&self.rt, self.log, path),
            None => {
                let mut file = OpenOptions::new().append(true).open(&self.rt, self.log)?;
                file.write_all(b"! somebody was here\n")
            }
        }
    }
}

impl<R: Files<File = File> + Drop> Write for Meddling<'_, R> {
    fn write(&mut self, bytes: &[u8]) -> io::Result<usize> {
        if !self.is_done {
            self.meddle()?;
            self.is_done = true;
        }
        Ok(bytes.len())
    }

    fn flush(&mut self) -> io::Result<()> {
        Ok(())
    }
}

/// Runs a manager on a domain, with a log that is moved, or gets a line of somebody else, when it writes for the first
/// time: FILE LOG, or FILE LOG PATH. Its lines are those of the text at hand, which another thread reads. Tells how it
/// ended.
pub fn call_meddled<R: LiveHost + 'static>(
    rt: &R,
    words: &str,
    place: &mut Place,
) -> io::Result<()> {
    let (file, rest) = words.split_once(' ').unwrap_or((words, ""));
    let (log, moves_to) = match rest.split_once(' ') {
        Some((log, path)) => (log, Some(path)),
        None => (rest, None),
    };
    let input = Lines::new(rt.alloc(), place.text.as_slice(), false)?;
    let mut output = Meddling {
        rt: *rt,
        log,
        moves_to,
        is_done: false,
    };
    place.is_open = false;
    let mut errors = Vec::new(rt.alloc());
    let mut advice = Advice::new(rt.alloc(), false);
    let wanted = options(file, log);
    let ended = run_live_as_lines_come(rt, &wanted, input, &mut output, &mut errors, &mut advice);
    tell_end(rt.alloc(), place, &ended)?;
    Ok(())
}
