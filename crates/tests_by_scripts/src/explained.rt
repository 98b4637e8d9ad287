//! Command lines with `--explain` and without it, whose results are the same.

use crate::calls::{FILES, run};
use crate::place::Place;
use smirun_live::LiveHost;
use smirun_run::Host;
use smirun_words::Terminals;
use std::alloc::{AllocError, Global};
use std::fs;

// The word that asks for explanations, behind others.
const EXPLAIN: &str = " --explain";

/// What a command line gave.
#[derive(Drop)]
pub struct Given {
    pub status: u8,
    pub output: Vec<u8>,
    /// What it wrote for errors, which is no part of its result.
    pub errors: Vec<u8>,
    /// The journal that it kept: nothing if it kept none.
    pub journal: Vec<u8>,
}

impl Given {
    fn is_same(&self, other: &Given) -> bool {
        self.status == other.status
            && self.output.as_slice() == other.output.as_slice()
            && self.journal.as_slice() == other.journal.as_slice()
    }
}

/// Performs a command line, whose standard input is the text at hand.
pub fn give<R: Host + LiveHost>(rt: &R, line: &str, text: &[u8]) -> Result<Given, AllocError> {
    give_at(rt, line, text, FILES)
}

/// The same where some streams may be a terminal.
pub fn give_at<R: Host + LiveHost>(
    rt: &R,
    line: &str,
    text: &[u8],
    terminals: Terminals,
) -> Result<Given, AllocError> {
    let mut output = Vec::new(rt.alloc());
    let mut errors = Vec::new(rt.alloc());
    match run(rt, line, text, terminals, &mut output, &mut errors) {
        Ok(status) => Ok(Given {
            status,
            output,
            errors,
            journal: journal_of(rt, line),
        }),
        Err(error) => Err(error),
    }
}

// The file of the journal that a command line names: nothing if it names none, or if that cannot be read.
fn journal_of<R: Host + LiveHost>(rt: &R, line: &str) -> Vec<u8> {
    let named = line.split_once(" --journal ").map(|(_, rest)| rest);
    let path = named.and_then(|rest| rest.split(' ').next());
    let read = path.and_then(|path| fs::read(rt, path).ok());
    read.unwrap_or(Vec::new(rt.alloc()))
}

// Whether a command line asks for a command that explains what it refuses, and whose result is the same each time.
fn can_explain(line: &str) -> bool {
    match line.split(' ').nth(1) {
        Some(command) => ["check", "lint", "print", "step", "audit", "cover"].contains(&command),
        None => false,
    }
}

// The same command line with `--explain`, or without it if it has it.
fn other_way(alloc: Global, line: &str) -> Result<String, AllocError> {
    match line.split_once(EXPLAIN) {
        Some((before, behind)) => format!(in alloc; "{before}{behind}"),
        None => format!(in alloc; "{line}{EXPLAIN}"),
    }
}

// Performs a command line, and tells it if its result is another.
fn tell_other<R: Host + LiveHost>(
    rt: &R,
    line: &str,
    given: &Given,
    place: &mut Place,
) -> Result<(), AllocError> {
    let other = give(rt, line, place.text.as_slice())?;
    if given.is_same(&other) {
        Ok(())
    } else {
        place.tell_line("  differs: ", line)
    }
}

/// Performs a command line that can explain a second time, with `--explain`, or without it if it has it. Tells it if
/// that changes its status, its output or its journal.
pub fn tell_explained<R: Host + LiveHost>(
    rt: &R,
    line: &str,
    given: &Given,
    place: &mut Place,
) -> Result<(), AllocError> {
    if !can_explain(line) {
        return Ok(());
    }
    let other = other_way(rt.alloc(), line)?;
    tell_other(rt, other.as_str(), given, place)
}

/// Performs two command lines, and tells the second if its result differs from that of the first.
pub fn compare<R: Host + LiveHost>(
    rt: &R,
    lines: &str,
    place: &mut Place,
) -> Result<(), AllocError> {
    place.is_open = false;
    let (first, second) = lines.split_once(" | ").unwrap_or((lines, ""));
    let given = give(rt, first, place.text.as_slice())?;
    tell_other(rt, second, &given, place)
}
